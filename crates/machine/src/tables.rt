// The tables that a call is lent: machine rows, state rows and transition rows, each a list of words.
#[derive(Clone, Copy)]
pub struct Tables<'a> {
    pub machines: &'a [u64],
    pub states: &'a [u64],
    pub transitions: &'a [u64],
}
