// What can go wrong in a trial of the isolator, each as a sentence.
use lifts::LogError;
use thiserror::Error;

#[derive(Clone, Copy, Debug, Error)]
pub enum TrialError {
    #[error(transparent)]
    Log(#[from] LogError),
    // The shift did not end before the last turn of the isolator.
    #[error("The shift writes more bytes than the isolator was turned for.")]
    NoEnd,
    // A power cut lost or doubled a lift.
    #[error("A power cut lost or doubled a lift.")]
    NotKept,
}
