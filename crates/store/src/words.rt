use std::alloc::{AllocError, Global};

/// The words of a line, without its comment.
pub(crate) fn words_of(heap: Global, line: &str) -> Result<Vec<&str>, AllocError> {
    line.split_once('#')
        .map_or(line, |(said, _)| said)
        .split_whitespace()
        .collect(heap)
}
