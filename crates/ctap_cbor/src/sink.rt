//! Encodes into a borrowed buffer, each head in its shortest form.

ghost use Rattle.std.specs.Prelude.{◌≡◌, ◌<◌, ◌≤◌, ◌↔◌, IsTrue, [], ◌∷◌, length, take};
ghost use Rattle.ctap_cbor.specs.Grammar.{head, head_len};
ghost use Rattle.ctap_cbor.specs.Tree.{Int, Bytes, Text, Flag, Null};
ghost use Rattle.ctap_cbor.specs.Grammar.{encode_scalar, Fits};

/// Writes CBOR to a borrowed buffer, from the beginning. Scalars are written whole. For an array or map, only the head
/// is written. The caller then writes the items, or the keys and values in ascending order of the encoded keys. Each
/// call requires enough space for its output.
#[derive(Drop)]
pub struct Sink<'a> {
    buffer: &'a mut [u8],
    len: usize,
    ghost within: { len ≤ length buffer.now },
}

impl<'a> Sink<'a> {
    ghost use Rattle.ctap_cbor.specs.Writing.{contents, unwritten_rest, space_of, scalar_len, Appends, IsOver, SameBuffer};

    /// Creates a sink that writes to this buffer.
    pub fn new(buffer: &'a mut [u8]) -> Self
        ensures empty { contents result ≡ [] }
        ensures unwritten_rest { unwritten_rest result ≡ buffer.old }
        ensures space { space_of result ≡ length buffer.old }
        ensures same { IsOver buffer.entry result }
    {
        Sink { buffer, len: 0 }
    }

    /// Returns the number of bytes written.
    pub fn len(&self) -> usize
        ensures { result ≡ length (contents self.now) }
    {
        self.len
    }

    /// Returns whether no byte was written yet.
    pub fn is_empty(&self) -> bool
        ensures { IsTrue result ↔ (contents self.now ≡ []) }
    {
        self.len == 0
    }

    /// Writes an unsigned integer.
    pub fn uint(&mut self, value: u64)
        requires { head_len value ≤ space_of self.old }
        ensures appends { Appends self.old self.new (head 0 value) (head_len value) }
        ensures same { SameBuffer self.old self.new }
    {
        self.head(0, value);
    }

    /// Writes an integer from -2^64 to 2^64-1.
    #[tactic(auto)]
    pub fn int(&mut self, value: i128)
        requires range { Fits (Int value) }
        requires space { scalar_len (Int value) ≤ space_of self.old }
        ensures appends { Appends self.old self.new (encode_scalar (Int value)) (scalar_len (Int value)) }
        ensures same { SameBuffer self.old self.new }
    {
        if value >= 0 {
            self.head(0, value as u64);
        } else {
            self.head(1, (-1 - value) as u64);
        }
    }

    /// Writes a byte string.
    pub fn bytes(&mut self, value: &[u8])
        requires { scalar_len (Bytes value.now) ≤ space_of self.old }
        ensures appends { Appends self.old self.new (encode_scalar (Bytes value.now)) (scalar_len (Bytes value.now)) }
        ensures same { SameBuffer self.old self.new }
    {
        self.head(2, value.len() as u64);
        self.extend(value);
    }

    /// Writes a text string.
    pub fn text(&mut self, value: &str)
        requires { scalar_len (Text value.now) ≤ space_of self.old }
        ensures appends { Appends self.old self.new (encode_scalar (Text value.now)) (scalar_len (Text value.now)) }
        ensures same { SameBuffer self.old self.new }
    {
        self.head(3, value.len() as u64);
        self.extend(value.as_bytes());
    }

    /// Writes the head of an array of `count` items.
    pub fn array(&mut self, count: u64)
        requires { head_len count ≤ space_of self.old }
        ensures appends { Appends self.old self.new (head 4 count) (head_len count) }
        ensures same { SameBuffer self.old self.new }
    {
        self.head(4, count);
    }

    /// Writes the head of a map of `count` pairs.
    pub fn map(&mut self, count: u64)
        requires { head_len count ≤ space_of self.old }
        ensures appends { Appends self.old self.new (head 5 count) (head_len count) }
        ensures same { SameBuffer self.old self.new }
    {
        self.head(5, count);
    }

    /// Writes a Boolean.
    pub fn flag(&mut self, value: bool)
        requires { 1 ≤ space_of self.old }
        ensures appends { Appends self.old self.new (encode_scalar (Flag value)) 1 }
        ensures same { SameBuffer self.old self.new }
    {
        self.extend(&[if value { 0xf5 } else { 0xf4 }]);
    }

    /// Writes null.
    pub fn null(&mut self)
        requires { 1 ≤ space_of self.old }
        ensures appends { Appends self.old self.new (encode_scalar Null) 1 }
        ensures same { SameBuffer self.old self.new }
    {
        self.extend(&[0xf6]);
    }

    /// Writes the shortest head with this major type and argument.
    fn head(&mut self, major: u8, argument: u64)
        requires low { major < 8 }
        requires space { head_len argument ≤ space_of self.old }
        ensures appends { Appends self.old self.new (head major argument) (head_len argument) }
        ensures same { SameBuffer self.old self.new }
    {
        let mut head = [0; 9];
        let len = head_into(major, argument, &mut head);
        self.extend(&head[..len]);
    }

    /// Writes bytes.
    fn extend(&mut self, bytes: &[u8])
        requires { length bytes.now ≤ space_of self.old }
        ensures appends { Appends self.old self.new bytes.now (length bytes.now) }
        ensures same { SameBuffer self.old self.new }
    {
        let end = self.len + bytes.len();
        self.buffer[self.len..end].copy_from_slice(bytes);
        self.len = end;
    }
}

/// Writes the shortest head with this major type and argument to the beginning of a buffer, and returns the length of
/// the head. The buffer must be large enough for any head.
#[tactic(auto, unfolding(crate::specs::Grammar::head))]
pub fn head_into(major: u8, argument: u64, out: &mut [u8]) -> usize
    requires low { major < 8 }
    requires space { 9 ≤ length out.old }
    ensures len { result ≡ head_len argument }
    ensures within { result ≤ 9 }
    ensures front { take result out.new ≡ head major argument }
{
    let first = 32 * major;
    if argument < 24 {
        out[0] = first + argument as u8;
        return 1;
    }
    if argument < 0x100 {
        out[0] = first + 24;
        out[1] = argument as u8;
        return 2;
    }
    if argument < 0x1_0000 {
        out[0] = first + 25;
        out[1..3].copy_from_slice(&(argument as u16).to_be_bytes());
        return 3;
    }
    if argument < 0x1_0000_0000 {
        out[0] = first + 26;
        out[1..5].copy_from_slice(&(argument as u32).to_be_bytes());
        return 5;
    }
    out[0] = first + 27;
    out[1..9].copy_from_slice(&argument.to_be_bytes());
    9
}
