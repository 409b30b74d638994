//! Lists, from their tokens.

ghost use Rattle.std.specs.Prelude.{◌≡◌, ℕ, suc, IfOk};
ghost use Rattle.serde_json.specs.Data.{Data, Items as Trees, array};
ghost use Rattle.sab_reader.specs.Script.Plain.{HoldsTree};
ghost use Rattle.sab_reader.specs.Script.Reading.{SpellsUpTo};

use json::Element;
use std::alloc::{AllocError, Global};

/// Why a script isn't read from its tokens.
#[derive(Clone, Copy, Drop)]
pub(crate) enum Miss {
    /// It isn't plain, or it spells no setup.
    NotPlain,
    /// There is no memory.
    Memory,
}

impl From<AllocError> for Miss {
    fn from(_: AllocError) -> Miss {
        Miss::Memory
    }
}

/// Reads an item of an array.
pub(crate) trait Scanner {
    /// What an item is read as.
    type Item: Drop;

    /// How deep an item nests at most.
    ghost nests: { Self → ℕ };

    /// What it is to spell an item.
    ghost Spells: { Self → Data → Self.Item → Type 0 };

    /// The item that a value spells.
    fn scan(&self, element: &Element<'_, '_>) -> Result<Self::Item, Miss>
        ensures { IfOk result (λ x. HoldsTree (nests self.now) (λ d. Spells self.now d x) element.now) };
}

/// What the items of an array spell, in order, of which there may be `most`.
pub(crate) fn scan_items<R: Scanner>(
    alloc: Global,
    scanner: &R,
    most: usize,
    element: &Element<'_, '_>,
) -> Result<Vec<R::Item>, Miss>
    ensures { IfOk result (λ found. HoldsTree (suc (R.nests scanner.now)) (λ d. (ds : Trees) × (d ≡ array ds)
        × SpellsUpTo most (R.Spells scanner.now) ds found.items) element.now) }
{
    let Some(mut items) = element.items() else {
        return Err(Miss::NotPlain);
    };
    let mut found = Vec::new(alloc);
    while let Some(item) = items.next() {
        if let Err(e) = found.push(scanner.scan(&item)?) {
            return Err(AllocError::from(e).into());
        }
    }
    if found.len() > most {
        return Err(Miss::NotPlain);
    }
    Ok(found)
}
