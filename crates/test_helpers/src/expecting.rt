//! What a test expects.

use std::fmt::Debug;
use std::test::Fail;

/// Fails, and reports what is wrong, if something doesn't hold.
pub fn expect(holds: bool, wrong: &'static str) -> Result<(), Fail> {
    if holds { Ok(()) } else { Err(Fail::new(wrong)) }
}

/// Fails, and shows the row of a table, if something doesn't hold of it.
pub fn expect_of<T: Debug>(holds: bool, row: &T) -> Result<(), Fail> {
    if holds {
        Ok(())
    } else {
        Err(Fail::new(format_args!("it does not hold of {row:?}")))
    }
}
