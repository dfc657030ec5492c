// Numbers that stand for nothing of the paper's.
ghost use Rattle.std.specs.Prelude.{◌≡◌, ◌<◌, false, ◌&&◌, leb};

// A number that is no kind.
#[derive(Clone, Copy)]
pub struct OtherKind {
    pub number: u8,
    ghost above: { 4 < number },
}

// A number that is no question.
#[derive(Clone, Copy, PartialEq, Eq)]
pub struct OtherQuestion {
    pub number: u8,
    ghost outside: { (leb 1 number && leb number 26) ≡ false },
}
