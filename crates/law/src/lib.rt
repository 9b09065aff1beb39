#![tactic(auto)]

ghost use Rattle.std.specs.Prelude.{◌≡◌, nat_lt};
ghost use Rattle.law.specs.Law.{TheLaw, LawAt};
ghost use Rattle.law.specs.Example.{Example, two};

// A page size is any number but 0.
fn is_page_size(page_size: u16) -> bool
    ensures { result ≡ nat_lt 0 page_size }
{
    page_size > 0
}

// Whether the law holds of all lines at a page size: it does at every one that there is.
pub fn law_holds(page_size: u16) -> bool
    ensures law { TheLaw }
    ensures here { LawAt page_size result }
    ensures sizes { result ≡ nat_lt 0 page_size }
{
    is_page_size(page_size)
}

// The page with the bytes 1 2, cut from 1 2 3: the old slot is zeros.
fn page_of_two() -> [u8; 16]
    ensures { result ≡ two }
{
    [1, 2, 3, 0, 0, 0, 0, 0, 0, 0, 0, 2, 0, 0, 0, 8]
}

// The page that the worked line leaves. There is such a line.
pub fn worked_page() -> [u8; 16]
    ensures line { Example }
    ensures page { result ≡ two }
{
    page_of_two()
}
