//! Data items as owned trees, for tools and tests.

ghost use Rattle.std.specs.Prelude.{◌≡◌, map, string_bytes};

/// A data item with its content. A value may be any tree; [`encode_value`](crate::encode_value) rejects trees without a
/// canonical encoding.
#[derive(Debug, PartialEq, Drop)]
pub enum Value {
    Int(i128),
    Bytes(Vec<u8>),
    Text(String),
    Array(Vec<Value>),
    /// The pairs, in the order of encoding.
    Map(Vec<(Value, Value)>),
    Bool(bool),
    Null,
}

ghost use Rattle.ctap_cbor.specs.Tree as tree;
ghost use Rattle.ctap_cbor.specs.Values.{to_tree, to_trees, to_pairs};

// There is one function for each variant, because in a larger function the prover doesn't evaluate `to_tree` of a
// constructor.

/// Creates an integer.
pub(crate) fn new_int(i: i128) -> Value
    ensures { to_tree result ≡ tree.Plain (tree.Int i) }
{
    Value::Int(i)
}

/// Creates a byte string.
pub(crate) fn new_bytes(bytes: Vec<u8>) -> Value
    ensures { to_tree result ≡ tree.Plain (tree.Bytes bytes.items) }
{
    Value::Bytes(bytes)
}

/// Creates a text string.
pub(crate) fn new_text(text: String) -> Value
    ensures { to_tree result ≡ tree.Plain (tree.Text (string_bytes text)) }
{
    Value::Text(text)
}

/// Creates an array.
pub(crate) fn new_array(items: Vec<Value>) -> Value
    ensures { to_tree result ≡ tree.Array (to_trees items.items) }
{
    Value::Array(items)
}

/// Creates a map.
pub(crate) fn new_map(pairs: Vec<(Value, Value)>) -> Value
    ensures { to_tree result ≡ tree.Map (to_pairs pairs.items) }
{
    Value::Map(pairs)
}

/// Creates a Boolean.
pub(crate) fn new_flag(flag: bool) -> Value
    ensures { to_tree result ≡ tree.Plain (tree.Flag flag) }
{
    Value::Bool(flag)
}

/// Creates null.
pub(crate) fn new_null() -> Value
    ensures { to_tree result ≡ tree.Plain tree.Null }
{
    Value::Null
}
