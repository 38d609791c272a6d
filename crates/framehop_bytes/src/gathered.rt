//! Lists that are made item by item, and are given up where an allocation fails.
ghost use Rattle.std.specs.Prelude.{◌≡◌, ◌++◌, ◌∷◌, [], List};
ghost use Rattle.framehop_bytes.specs.Gathered.{IsGathered};

/// Returns the list with another item, or `None` where an allocation fails, or failed before.
pub fn pushed<T: Copy>(items: Option<Vec<T>>, item: T) -> Option<Vec<T>>
    ensures { (list : List T) → IsGathered list items → IsGathered (list ++ item ∷ []) result }
{
    let mut items = items?;
    match items.push(item) {
        Ok(()) => Some(items),
        Err(_) => None,
    }
}
