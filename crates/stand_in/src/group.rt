// The group of the stand-in: products of 64-bit numbers. It protects nothing.
ghost use Rattle.std.specs.Prelude.{◌≡◌};
ghost use Rattle.stand_in.specs.StandIn.{stand_in_group, element};
ghost use Rattle.stand_in.specs.Products;
ghost use Rattle.stand_in.specs.Products.{one_stays, sized};

use crate::StandIn;
use crate::number::{element_of, product};
use fixed_bytes::compare::same_bytes;
use fixed_bytes::fixed::{Fixed, PublicKey};
use fixed_bytes::secret::{CommonElement, Secret, SecretKey};
use primitives::group::Group;

// The number that public halves are multiples of.
const BASE: u64 = 5;

impl Group for StandIn {
    ghost model = { stand_in_group };

    ghost commutes = { Products.commutes };

    ghost identity = { one_stays };

    ghost size = { sized };

    fn public_half(key: &SecretKey) -> PublicKey {
        PublicKey(Fixed::from(product(key.0.bytes(), &element_of(BASE))))
    }

    fn common(key: &SecretKey, theirs: &PublicKey) -> CommonElement {
        let mut element = product(key.0.bytes(), theirs.0.bytes());
        CommonElement(Secret::taken_from(&mut element))
    }

    fn is_one(element: &CommonElement) -> bool {
        same_bytes(element.0.bytes(), &[0; 32])
    }
}
