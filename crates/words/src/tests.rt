// Examples at the bounds: 16 and 17 preferences, one twice, none, and choices among them.
use crate::choice::choose;
use crate::cipher::Cipher;
use crate::fault::Fault;
use crate::preferences::Preferences;
use std::test::Fail;

// The ciphers from a number on, so many of them.
fn ciphers(first: u8) -> [Cipher; 17] {
    let mut all = [Cipher::new(first); 17];
    for (slot, number) in all.iter_mut().zip(first..=u8::MAX) {
        *slot = Cipher::new(number);
    }
    all
}

fn refusal(made: Result<Preferences, Fault>) -> &'static str {
    match made {
        Ok(_) => "taken",
        Err(Fault::NoCipher) => "none",
        Err(Fault::TooManyCiphers) => "too many",
        Err(Fault::CipherTwice) => "twice",
        Err(_) => "another fault",
    }
}

#[test]
fn bounds(rt: HostRuntime) -> Result<(), Fail> {
    let all = ciphers(1);
    let mut full = Preferences::from_slice(&all[0..16])?;
    assert_eq!(rt; full.as_slice().len(), 16);
    assert!(rt; full.as_slice() == &all[0..16]);
    assert_eq!(rt; refusal(Preferences::from_slice(&all)), "too many");
    assert_eq!(rt; refusal(Preferences::from_slice(&[])), "none");
    assert_eq!(rt;
        refusal(Preferences::from_slice(&[all[0], all[1], all[0]])),
        "twice"
    );
    assert_eq!(rt; refusal(Preferences::from_slice(&[all[0]; 17])), "too many");
    assert!(rt; full.add(all[16]).is_err());
    assert_eq!(rt; full.as_slice().len(), 16);
    Ok(())
}

#[test]
fn choices(rt: HostRuntime) -> Result<(), Fail> {
    let all = ciphers(1);
    let low = Preferences::from_slice(&all[0..16])?;
    assert_eq!(rt; choose(&low, &low), Some(all[0]));
    let there = Preferences::from_slice(&[all[0], all[1]])?;
    let back = Preferences::from_slice(&[all[1], all[0]])?;
    assert_eq!(rt; choose(&back, &there), Some(all[1]));
    assert_eq!(rt; choose(&there, &back), Some(all[0]));
    let mut high = Preferences::from_slice(&ciphers(100)[0..15])?;
    assert_eq!(rt; choose(&high, &low), None);
    high.add(all[15])?;
    assert_eq!(rt; choose(&high, &low), Some(all[15]));
    Ok(())
}
