//! Names as the keys of a map. Their bytes are hashed in one call; a slice's hash makes one for each.

ghost use Rattle.std.{specs.Prelude.{◌∷◌, []}, proofs.Common.ap, specs.{Cmp.partial_equiv_from_equiv, Cmp.Lexicographic.{bytes_decides, nat_list_eq_equiv}, Str.bytes_eq}};

use std::hash::{BuildHasher, DefaultHasher, FoldHasher, Hash, Hasher};
use std::marker::Model;
use war_types::Settings;

/// The hash of a source's names, keyed by the whole source and the seed of the settings. So names that collide can't be prepared:
/// adding them to a source changes the key.
#[derive(Clone, Copy)]
pub struct NameHash {
    initial: FoldHasher,
}

impl NameHash {
    pub fn of(source: &[u8], settings: &Settings) -> NameHash {
        let mut sum = DefaultHasher::new();
        sum.write(source);
        let mut initial = FoldHasher::default();
        initial.write_u64(sum.finish());
        initial.write_u32(settings.seed());
        NameHash { initial }
    }
}

impl BuildHasher for NameHash {
    type Hasher = FoldHasher;

    ghost build_hasher = { λ h. h.initial };

    fn build_hasher(&self) -> FoldHasher {
        self.initial
    }
}

/// A name in a map. Its bytes are those of a token, in the source or in the region of the assembly.
#[derive(Drop)]
pub(crate) struct NameKey<'s> {
    pub bytes: &'s [u8],
}

impl<'s> Model for NameKey<'s> {
    ghost use Rattle.std.specs.Prelude.{ℕ, List};

    ghost Value = { List ℕ };

    ghost view = { λ k. k.bytes.now };
}

impl PartialEq for NameKey<'_> {
    ghost eq = { bytes_eq };

    ghost laws = { partial_equiv_from_equiv nat_list_eq_equiv };

    fn eq(&self, other: &Self) -> bool {
        self.bytes == other.bytes
    }
}

impl Eq for NameKey<'_> {
    ghost laws = { nat_list_eq_equiv };
}

impl Hash for NameKey<'_> {
    ghost hash_input = { λ key. key ∷ [] };

    ghost respects_eq = { λ x y same. ap (λ bytes. bytes ∷ []) ((bytes_decides x y).0 same) };

    fn hash<H: Hasher>(&self, state: &mut H) {
        state.write(self.bytes);
    }
}
