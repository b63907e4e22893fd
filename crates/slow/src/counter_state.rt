use memory::Request;

// A request which is made to wait, and how many own waits it was given.
#[derive(Clone, Copy, Debug, PartialEq, Eq, Hash)]
pub(crate) struct Waiting {
    pub(crate) request: Request,
    pub(crate) given: u32,
}

// The waits that a slow memory adds to each request, and the request which was made to wait last and has not ended since.
#[derive(Clone, Copy, Debug, PartialEq, Eq, Hash)]
pub(crate) struct WaitCounter {
    pub(crate) own: u32,
    pub(crate) waiting: Option<Waiting>,
}
