use crate::data_key::{DataKey, KeyTextError};
use std::alloc::Global;
use std::test::Fail;

/// The first 16 bytes of the SHA-256 of eight 0 and "body", low bytes first.
const BODY: u128 = 0x452cc55e59c6a6d66fad1d094bf34cad;

/// Reads a text that names no key.
fn refusal(text: &str) -> Option<KeyTextError> {
    text.parse::<DataKey>().err()
}

#[test]
fn a_key_shows_its_digest(rt: HostRuntime) -> Result<(), Fail> {
    let Some(key) = DataKey::new(BODY) else {
        return Err(Fail::from("a key of 0"));
    };
    let text = key.to_string(rt.alloc())?;
    assert_eq!(rt; text.as_str(), "ad4cf34b091dad6fd6a6c6595ec52c45");
    Ok(())
}

#[test]
fn digits_name_a_key(rt: HostRuntime) -> Result<(), Fail> {
    let read = "AD4cf34b091dad6fd6a6c6595ec52c45".parse::<DataKey>();
    assert!(rt; read == DataKey::new(BODY).ok_or(KeyTextError::Zero));
    Ok(())
}

#[test]
fn other_texts_are_refused(rt: HostRuntime) -> Result<(), Fail> {
    assert!(rt; refusal("") == Some(KeyTextError::NotHex));
    assert!(rt; refusal("ad4cf34b091dad6fd6a6c6595ec52c4") == Some(KeyTextError::NotHex));
    assert!(rt; refusal("ad4cf34b091dad6fd6a6c6595ec52c45 ") == Some(KeyTextError::NotHex));
    assert!(rt; refusal("gd4cf34b091dad6fd6a6c6595ec52c45") == Some(KeyTextError::NotHex));
    assert!(rt; refusal("00000000000000000000000000000000") == Some(KeyTextError::Zero));
    Ok(())
}
