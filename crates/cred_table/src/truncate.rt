//! Truncating names.

ghost use Rattle.std.specs.Prelude.{◌≡◌};
ghost use Rattle.cred_table.specs.Rows.{IsCut, cut};

/// Maximum length of a name in bytes.
const MAX_NAME_LEN: usize = 64;

/// Truncates a name to at most 64 bytes, at a character boundary.
pub fn cut_name(name: &str) -> &str
    ensures cut { IsCut name.now result.now }
    ensures only { result.now ≡ cut name.now }
{
    &name[..name.floor_char_boundary(MAX_NAME_LEN)]
}
