//! Tables from numbers to their names.

/// Numbers and their names.
pub type Names = &'static [(i128, &'static str)];

/// Returns the name of a number.
pub fn name_in(names: Names, number: i128) -> Option<&'static str> {
    for (named, name) in names {
        if *named == number {
            return Some(*name);
        }
    }
    None
}
