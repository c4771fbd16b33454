// Numbers that the documents give no ground.
ghost use Rattle.std.specs.Prelude.{◌*◌, ◌≤◌};

// A number that is none of the documents', by which a caller's own limits refuse: 0, or one above theirs.
#[derive(Clone, Copy, PartialEq, Eq)]
pub struct Unlisted {
    pub number: u32,
    pub ghost unlisted: { 23 * number ≤ number * number },
}
