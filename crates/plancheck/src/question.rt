use map::map::Map;

/// What is judged: a plan on a map.
#[derive(Clone, Copy)]
pub(crate) struct Question<'a, W, R> {
    pub(crate) map: &'a Map,
    pub(crate) finder: &'a W,
    pub(crate) ranker: &'a R,
}
