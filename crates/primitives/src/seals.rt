// Sealing for a public half, in place: room for the seal's own half, the content, room for a tag.
ghost use Rattle.std.specs.Prelude.{◌≡◌};
ghost use Rattle.fixed_bytes.specs.Zeros.{zeros};
ghost use Rattle.primitives.specs.declared.seals.NotSealed.TheVariants.{NoRoom};
ghost use Rattle.primitives.specs.declared.seals.NotOpened.TheVariants.{Shut};
ghost use Rattle.primitives.specs.Seals.{seal_key, Sealing, Unsealing, SealedOpens, OnlySealedOpens, SealedApart};

use crate::group::Group;
use crate::sums::derive;
use aead::closing::{Refused, close_behind, open_behind, opens};
use aead::key::ClosingKey;
use fixed_bytes::fixed::{Fixed, PublicKey};
use fixed_bytes::secret::{CommonElement, Secret, SecretKey};

// Why nothing was sealed: the common element is the group's one, or there is no room for a half and a tag.
#[derive(Clone, Copy, Debug)]
pub enum NotSealed {
    SealedToOne,
    NoRoom,
}

// Sealing is refused where the bytes have no room. This From and the next are written by hand, since what a derive writes has
// no contract.
impl From<Refused> for NotSealed {
    ghost from_gives = { λ _ reason. reason ≡ NoRoom };

    fn from(_refused: Refused) -> NotSealed {
        NotSealed::NoRoom
    }
}

// Why a seal wasn't opened: it doesn't open, or it does and the common element is the group's one.
#[derive(Clone, Copy, Debug)]
pub enum NotOpened {
    Shut,
    OpenedByOne,
}

impl From<Refused> for NotOpened {
    ghost from_gives = { λ _ reason. reason ≡ Shut };

    fn from(_refused: Refused) -> NotOpened {
        NotOpened::Shut
    }
}

// Where the closed bytes stand: behind the seal's own half.
const HALF_LENGTH: usize = 32;

// The key of a seal: the half that is sealed for and then the seal's own half, under their common element.
fn seal_key(common: &CommonElement, theirs: &PublicKey, own: &PublicKey) -> ClosingKey
    ensures { result.key.bytes ≡ seal_key common.now.0.bytes theirs.now.0.bytes own.now.0.bytes }
{
    derive(&common.0, theirs.0.bytes(), own.0.bytes())
}

// The content is sealed in its place for a public half, with a key that is drawn for this once: zeros are left where it stood.
pub fn seal<G: Group>(
    drawn: &mut [u8; 32],
    theirs: &PublicKey,
    bytes: &mut [u8],
) -> Result<(), NotSealed>
    ensures sealed { Sealing G.Group.model drawn.old theirs.now.0.bytes bytes.old bytes.new result }
    ensures wiped { drawn.new ≡ zeros 32 }
{
    let key = SecretKey(Secret::taken_from(drawn));
    let common = G::common(&key, theirs);
    if G::is_one(&common) {
        return Err(NotSealed::SealedToOne);
    }
    let own = G::public_half(&key);
    let closing = seal_key(&common, theirs, &own);
    close_behind(&closing, 0, &[], HALF_LENGTH, bytes)?;
    bytes[0..HALF_LENGTH].copy_from_slice(own.0.bytes());
    Ok(())
}

// A seal is opened in its place with the key of the half that it was sealed for.
pub fn open_seal<G: Group>(key: &SecretKey, bytes: &mut [u8]) -> Result<(), NotOpened>
    ensures { Unsealing G.Group.model key.now.0.bytes bytes.old bytes.new result }
{
    let (front, closed) = bytes.split_first_chunk::<32>().ok_or(NotOpened::Shut)?;
    let own = PublicKey(Fixed::from(*front));
    let agreed = G::common(key, &own);
    let closing = seal_key(&agreed, &G::public_half(key), &own);
    if G::is_one(&agreed) {
        if opens(&closing, &[], closed) {
            return Err(NotOpened::OpenedByOne);
        }
        return Err(NotOpened::Shut);
    }
    Ok(open_behind(&closing, 0, &[], HALF_LENGTH, bytes)?)
}

// What was sealed for the half of a key opens with that key, and gives the content back.
pub fn sealed_opens<G: Group>()
    ensures { SealedOpens G.Group.model }
{}

// What opens is exactly what closing its content gives.
pub fn only_sealed_opens<G: Group>()
    ensures { OnlySealedOpens G.Group.model }
{}

// Different contents are sealed into different bytes.
pub fn sealed_apart<G: Group>()
    ensures { SealedApart G.Group.model }
{}
