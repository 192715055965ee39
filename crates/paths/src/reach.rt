// Whether there is a path.

/// Yes or no: whether there is a path.
#[derive(Clone, Copy)]
pub struct Reach {
    pub yes: bool,
}
