// The claims of a certificate, walked until no claim's record stands.
ghost use Rattle.std.specs.Prelude.{◌≡◌, ℕ};
ghost use Rattle.std.specs.Iterator.{YieldsFirst, item_count};
ghost use Rattle.std.specs.Result.{IfOk};
ghost use Rattle.certificate.specs.Reading.{claims_in};
ghost use Rattle.certificate.specs.Standing.{standing, claims_left};

use crate::{Claim, HEAD_BYTES, next_claim};
use levels::order::StoredLevel;
use std::marker::PhantomData;

// The claims in a certificate, from a place on.
#[derive(Drop)]
pub struct Claims<'a, L> {
    bytes: &'a [u8],
    place: usize,
    levels: PhantomData<L>,
}

// The claims in the records that stand from a place on; after the head they are what the certificate claims.
#[tactic(auto, using(crate::proofs::Walked::claims_read))]
pub fn claims_of<L: StoredLevel>(bytes: &[u8], place: usize) -> Claims<'_, L>
    ensures value { claims_left L.WIDTH L.decode result ≡ standing L.WIDTH L.decode bytes.now place }
    ensures read { (n : ℕ) → place ≡ HEAD_BYTES → IfOk (claims_in L.WIDTH L.decode n L.KIND bytes.now) (λ claims. claims_left L.WIDTH L.decode result ≡ claims) }
{
    Claims {
        bytes,
        place,
        levels: PhantomData,
    }
}

impl<'a, L: StoredLevel> Iterator for Claims<'a, L> {
    type Item = Claim<L>;

    ghost next_gives = { YieldsFirst (claims_left L.WIDTH L.decode) };

    ghost remaining = { item_count (claims_left L.WIDTH L.decode) };

    #[tactic(auto, using(crate::proofs::Walked::stands_none, crate::proofs::Walked::stands_some))]
    fn next(&mut self) -> Option<Claim<L>> {
        let step = next_claim::<L>(self.bytes, self.place)?;
        self.place = step.next;
        Some(step.claim)
    }
}
