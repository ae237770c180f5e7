// What stops a scan of lent bytes, of an expression or of a list.

// Something misshapen; or something well shaped that is not read here.
#[derive(Clone, Copy, PartialEq, Eq)]
pub enum Fault {
    Broken,
    Foreign,
}
