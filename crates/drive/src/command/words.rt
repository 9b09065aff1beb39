// The words of a line, and what a word stands for.
ghost use Rattle.std.specs.Prelude.{◌≡◌, ◌<◌, IfSome, IfOk};
ghost use Rattle.drive.specs.Words.{hex_digit, digit_code, hex_pair, hex_of};

use crate::problem::Problem;
use std::alloc::Global;
use std::str::SplitWhitespace;

// The words that are left of a line.
#[derive(Drop)]
pub struct Words<'a> {
    rest: SplitWhitespace<'a>,
}

impl<'a> Words<'a> {
    pub(crate) fn of(line: &'a str) -> Words<'a> {
        Words {
            rest: line.split_whitespace(),
        }
    }

    // The next word, which may be missing.
    pub(crate) fn first(&mut self) -> Option<&'a str> {
        self.rest.next()
    }

    // The next word.
    pub(crate) fn word(&mut self) -> Result<&'a str, Problem> {
        self.rest.next().ok_or(Problem::TooFewWords)
    }

    pub(crate) fn number(&mut self) -> Result<u64, Problem> {
        decimal(self.word()?)
    }

    // A number that a page size may be.
    pub(crate) fn page_size(&mut self) -> Result<u16, Problem> {
        u16::try_from(self.number()?).map_err(|_| Problem::NotANumber)
    }

    // A number, or none where the word is this one.
    pub(crate) fn number_or(&mut self, none: &str) -> Result<Option<u64>, Problem> {
        let word = self.word()?;
        if word == none {
            Ok(None)
        } else {
            Ok(Some(decimal(word)?))
        }
    }

    pub(crate) fn bytes(&mut self, heap: Global) -> Result<Vec<u8>, Problem> {
        hex(heap, self.word()?)
    }

    // Holds that no word is left. By a match, since here the word is what is wrong.
    pub(crate) fn end(&mut self) -> Result<(), Problem> {
        match self.rest.next() {
            None => Ok(()),
            Some(_) => Err(Problem::TooManyWords),
        }
    }
}

// A decimal number. Digits only, though `parse` would take a sign.
fn decimal(word: &str) -> Result<u64, Problem> {
    if word.starts_with('+') {
        return Err(Problem::NotANumber);
    }
    word.parse().map_err(|_| Problem::NotANumber)
}

// What a digit of lowercase hex stands for.
fn digit(c: u8) -> Option<u8>
    ensures value { result ≡ hex_digit c }
    ensures small { IfSome result (λ d. d < 16) }
    ensures back { IfSome result (λ d. digit_code d ≡ c) }
{
    match c {
        b'0'..=b'9' => Some(c - b'0'),
        b'a'..=b'f' => Some(c - b'a' + 10),
        _ => None,
    }
}

// The byte of two digits.
fn byte(pair: &[u8]) -> Result<u8, Problem>
    ensures { IfOk result (λ b. hex_pair b ≡ pair.now) }
{
    let [high, low] = pair else {
        return Err(Problem::NotHex);
    };
    let (Some(h), Some(l)) = (digit(*high), digit(*low)) else {
        return Err(Problem::NotHex);
    };
    Ok(h * 16 + l)
}

// The bytes of digits, two for each. The kit's crate `hex` would take capital letters too.
fn hex_pairs(heap: Global, digits: &[u8]) -> Result<Vec<u8>, Problem>
    ensures { IfOk result (λ v. hex_of v.items ≡ digits.now) }
{
    let mut bytes = Vec::new(heap);
    for pair in digits.chunks(2) {
        let b = byte(pair)?;
        bytes.push(b)?;
    }
    Ok(bytes)
}

// The bytes of a word in lowercase hex; a dash stands for none.
fn hex(heap: Global, word: &str) -> Result<Vec<u8>, Problem> {
    if word == "-" {
        Ok(Vec::new(heap))
    } else {
        hex_pairs(heap, word.as_bytes())
    }
}
