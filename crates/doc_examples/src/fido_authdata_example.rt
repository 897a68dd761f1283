//! The example in the documentation of `fido_authdata`.

use fido_authdata::{AuthData, to_sign};

#[test]
fn create_assertion(rt: HostRuntime) {
    let data = AuthData::assertion(&[0xa3; 32], true, 1);
    let bytes = data.bytes();
    assert!(rt; bytes.len() == 37);
    let signed = to_sign(&data, &[0x22; 32]);
    assert!(rt; signed.len() == 69);
}
