// Worked examples: theorems about the definitions, and one of them run.
#![tactic(auto)]

ghost use Rattle.std.specs.Prelude.{◌≡◌, Some};
ghost use Rattle.examples.specs.Worked.{WorkedExamples, second_of_two};

use checks::OlderSum;
use page::{ActiveChecksum, validate_page};

// The worked examples hold of the definitions. The answer is the slot that is valid where the data bytes are 1 2 3 0, First is (2, 9) and
// Second is (2, 8).
pub fn equal_lengths() -> Option<ActiveChecksum>
    ensures holds { WorkedExamples }
    ensures answer { result ≡ Some second_of_two }
{
    let page = [1, 2, 3, 0, 0, 2, 0, 0, 0, 9, 0, 2, 0, 0, 0, 8];
    validate_page(&OlderSum, &page).active()
}
