//! Rows worked out by hand, with each call once where it succeeds.

ghost use Rattle.std.specs.Prelude.{◌≡◌, IfOk, ◌<◌, ◌≤◌, ◌^◌, length};
ghost use Rattle.free_words.specs.Words.{IsOver};

use crate::{COMPOSED, GENERATORS, Letter, Word, WordFault, commutator_of, inverse_of};
use std::alloc::{AllocError, Global};
use std::test::Fail;

const A: Letter = Letter { g: 0, inv: false };

const A_INVERSE: Letter = Letter { g: 0, inv: true };

const B: Letter = Letter { g: 1, inv: false };

const B_INVERSE: Letter = Letter { g: 1, inv: true };

fn word(alloc: Global, letters: &[Letter]) -> Result<Word, AllocError>
    requires { length letters.now < 2 ^ 32 }
{
    Ok(Word::of(letters.to_vec(alloc)?))
}

/// a b^-1, by pushes
fn pushed(alloc: Global) -> Result<Word, WordFault> {
    let mut w = Word::new(alloc);
    w.push(A, 2)?;
    w.push(B_INVERSE, 2)?;
    Ok(w)
}

#[test]
fn reads_letters(rt: HostRuntime) -> Result<(), Fail> {
    let mut w = pushed(rt.alloc())?;
    assert_eq!(rt; w.len(), 2);
    assert_eq!(rt; w.letter(0), A);
    assert_eq!(rt; w.letter(1), B_INVERSE);
    assert!(rt; !w.is_empty());
    assert_eq!(rt; w.push(A, 2), Err(WordFault::TooLong { letters: 3 }));
    assert_eq!(rt; w.letters(), [A, B_INVERSE].as_slice());
    Ok(())
}

#[test]
fn joins(rt: HostRuntime) -> Result<(), Fail> {
    let mut w = word(rt.alloc(), &[A])?;
    let v = word(rt.alloc(), &[B, A_INVERSE])?;
    let product = w.product(rt.alloc(), &v, 3)?;
    assert_eq!(rt; product.letters(), [A, B, A_INVERSE].as_slice());
    assert!(rt; w.product(rt.alloc(), &v, 2).is_err());
    assert!(rt; w.len() == 1 && v.len() == 2);
    w.append(v)?;
    assert_eq!(rt; w.letters(), [A, B, A_INVERSE].as_slice());
    Ok(())
}

#[test]
fn inverts(rt: HostRuntime) -> Result<(), Fail> {
    let w = word(rt.alloc(), &[A, B, B])?;
    let inverse = w.inverse(rt.alloc())?;
    assert_eq!(rt;
        inverse.letters(),
        [B_INVERSE, B_INVERSE, A_INVERSE].as_slice()
    );
    let list = inverse_of(rt.alloc(), inverse.letters())?;
    assert_eq!(rt; list.as_slice(), w.letters());
    Ok(())
}

#[test]
fn takes_powers(rt: HostRuntime) -> Result<(), Fail> {
    let w = word(rt.alloc(), &[A, B])?;
    let back = [B_INVERSE, A_INVERSE, B_INVERSE, A_INVERSE];
    let rows = [
        (0, [].as_slice()),
        (1, [A, B].as_slice()),
        (2, [A, B, A, B].as_slice()),
        (-1, &back[..2]),
        (-2, &back[..]),
    ];
    for (k, want) in rows {
        let power = w.power(rt.alloc(), k, 4)?;
        assert_eq!(rt; power.letters(), want, "at {k}");
    }
    Ok(())
}

/// How long the power is, or would be.
fn power_len(alloc: Global, letters: &[Letter], k: i32, limit: u32) -> Result<u64, AllocError>
    requires { length letters.now < 2 ^ 32 }
{
    match word(alloc, letters)?.power(alloc, k, limit) {
        Ok(power) => Ok(power.len() as u64),
        Err(WordFault::TooLong { letters }) => Ok(letters),
        Err(WordFault::NoMemory) => Err(AllocError),
    }
}

#[test]
fn limits_powers(rt: HostRuntime) -> Result<(), Fail> {
    assert_eq!(rt; power_len(rt.alloc(), &[A, B], -3, 5)?, 6);
    assert_eq!(rt; power_len(rt.alloc(), &[A, B], i32::MIN, 5)?, 1 << 32);
    assert_eq!(rt; power_len(rt.alloc(), &[], i32::MIN, 0)?, 0);
    Ok(())
}

#[test]
fn makes_commutators(rt: HostRuntime) -> Result<(), Fail> {
    let u = word(rt.alloc(), &[A, B])?;
    let v = word(rt.alloc(), &[A])?;
    let want = [A, B, A, B_INVERSE, A_INVERSE, A_INVERSE];
    assert_eq!(rt; u.commutator(rt.alloc(), &v, 6)?.letters(), want.as_slice());
    assert!(rt; u.commutator(rt.alloc(), &v, 5).is_err());
    let list = commutator_of(rt.alloc(), u.letters(), v.letters())?;
    assert_eq!(rt; list.as_slice(), want.as_slice());
    Ok(())
}

fn reduced(alloc: Global, letters: &[Letter]) -> Result<Word, AllocError>
    requires { length letters.now < 2 ^ 32 }
{
    word(alloc, letters)?.reduce(alloc)
}

#[test]
fn reduces(rt: HostRuntime) -> Result<(), Fail> {
    let alloc = rt.alloc();
    assert_eq!(rt;
        reduced(alloc, &[A, B, B_INVERSE, A])?.letters(),
        [A, A].as_slice()
    );
    assert_eq!(rt;
        reduced(alloc, &[A, B, B_INVERSE, A_INVERSE])?.letters(),
        [].as_slice()
    );
    assert_eq!(rt;
        reduced(alloc, &[A_INVERSE, A, A])?.letters(),
        [A].as_slice()
    );
    assert_eq!(rt;
        reduced(alloc, &[A, B, A_INVERSE])?.letters(),
        [A, B, A_INVERSE].as_slice()
    );
    Ok(())
}

fn sums_of(alloc: Global, letters: &[Letter]) -> Result<[i32; 24], AllocError>
    requires known { IsOver GENERATORS letters.now }
    requires short { length letters.now ≤ COMPOSED }
{
    let w = Word::of(letters.to_vec(alloc)?);
    Ok(w.exponents())
}

#[test]
fn sums_exponents(rt: HostRuntime) -> Result<(), Fail> {
    let last = Letter { g: 23, inv: true };
    let sums = sums_of(rt.alloc(), &[B, A, last, B, A_INVERSE, last, B])?;
    assert_eq!(rt; sums[0], 0);
    assert_eq!(rt; sums[1], 3);
    assert_eq!(rt; sums[23], -2);
    Ok(())
}

/// a for the first generator, and a^3 for the second
fn images(alloc: Global) -> Result<Vec<Word>, AllocError>
    ensures { IfOk result (λ v. length v.items ≡ 2) }
{
    let mut images = Vec::new(alloc);
    images.push(word(alloc, &[A])?)?;
    images.push(word(alloc, &[A, A, A])?)?;
    Ok(images)
}

fn image(alloc: Global, letters: &[Letter], limit: u32) -> Result<Word, WordFault>
    requires known { IsOver 2 letters.now }
    requires short { length letters.now < 2 ^ 32 }
{
    let w = Word::of(letters.to_vec(alloc)?);
    w.substitute(alloc, &images(alloc)?, limit)
}

fn image_len(alloc: Global, letters: &[Letter]) -> Result<u64, AllocError>
    requires known { IsOver 2 letters.now }
    requires short { length letters.now < 2 ^ 32 }
{
    let w = Word::of(letters.to_vec(alloc)?);
    Ok(w.substituted_len(&images(alloc)?))
}

#[test]
fn substitutes(rt: HostRuntime) -> Result<(), Fail> {
    let relator = [A, B, A_INVERSE, B_INVERSE];
    let want = [A, A, A, A, A_INVERSE, A_INVERSE, A_INVERSE, A_INVERSE];
    assert_eq!(rt; image_len(rt.alloc(), &relator)?, 8);
    assert_eq!(rt; image(rt.alloc(), &relator, 8)?.letters(), want.as_slice());
    let past = image(rt.alloc(), &relator, 7);
    assert!(rt; matches!(past, Err(WordFault::TooLong { letters: 8 })));
    Ok(())
}
