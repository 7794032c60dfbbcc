//! Maps that are gone over by their keys, so that the map or its values may change meanwhile.
use std::collections::BTreeMap;

/// The first key of a map that is at least this.
pub fn key_from<K: Ord + Copy, V>(map: &BTreeMap<K, V>, first: K) -> Option<K> {
    let (key, _) = map.range(first..).next()?;
    Some(*key)
}
