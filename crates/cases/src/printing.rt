// What is printed: the text, or in one line why there is none.

use message::Error;
use std::alloc::{AllocError, Global};

pub(crate) fn print(heap: Global, res: Result<String, Error>) -> Result<String, AllocError> {
    res.or_else(|error| format!(in heap; "{error}"))
}
