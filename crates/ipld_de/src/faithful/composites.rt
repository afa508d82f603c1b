//! Options, lists, tuples and maps are faithful if their parts are.

ghost use Rattle.std.specs.Prelude.{refl};
ghost use Rattle.ipld_de.specs.Lemmas.FaithfulOf.{around_faithful, unsigned_faithful, option_faithful, list_faithful, and_faithful, regrouped, key_faithful, keyed_faithful};

use crate::faithful::Faithful;
use crate::key::DeserializeKey;
use std::collections::BTreeMap;

impl<T: Faithful> Faithful for Option<T> {
    ghost equal_by_contents = { option_faithful T.equal_by_contents };
}

impl<T: Faithful> Faithful for Vec<T> {
    ghost equal_by_contents = { around_faithful (λ (v : Self). v.items) (list_faithful T.equal_by_contents) };
}

impl<const N: usize> Faithful for [u8; N] {
    ghost equal_by_contents = { list_faithful unsigned_faithful };
}

impl<A: Faithful> Faithful for (A,) {
    ghost equal_by_contents = { regrouped (λ (c : A.Contents). (c, tt)) (λ (d : A.Contents × Unit {0}). d.0) (λ c. refl) (around_faithful (λ (v : Self). v.0) A.equal_by_contents) };
}

impl<A: Faithful, B: Faithful> Faithful for (A, B) {
    ghost equal_by_contents = { regrouped (λ (c : (A.Contents × B.Contents)). (c.0, (c.1, tt))) (λ (d : A.Contents × (B.Contents × Unit {0})). (d.0, d.1.0)) (λ c. refl) (and_faithful (around_faithful (λ (v : Self). v.0) A.equal_by_contents) (around_faithful (λ (v : Self). v.1) B.equal_by_contents)) };
}

impl<A: Faithful, B: Faithful, C: Faithful> Faithful for (A, B, C) {
    ghost equal_by_contents = { regrouped (λ (c : ((A.Contents × B.Contents) × C.Contents)). (c.0.0, (c.0.1, (c.1, tt)))) (λ (d : A.Contents × (B.Contents × (C.Contents × Unit {0}))). ((d.0, d.1.0), d.1.1.0)) (λ c. refl) (and_faithful (and_faithful (around_faithful (λ (v : Self). v.0) A.equal_by_contents) (around_faithful (λ (v : Self). v.1) B.equal_by_contents)) (around_faithful (λ (v : Self). v.2) C.equal_by_contents)) };
}

impl<A: Faithful, B: Faithful, C: Faithful, D: Faithful> Faithful for (A, B, C, D) {
    ghost equal_by_contents = { regrouped (λ (c : (((A.Contents × B.Contents) × C.Contents) × D.Contents)). (c.0.0.0, (c.0.0.1, (c.0.1, (c.1, tt))))) (λ (d : A.Contents × (B.Contents × (C.Contents × (D.Contents × Unit {0})))). (((d.0, d.1.0), d.1.1.0), d.1.1.1.0)) (λ c. refl) (and_faithful (and_faithful (and_faithful (around_faithful (λ (v : Self). v.0) A.equal_by_contents) (around_faithful (λ (v : Self). v.1) B.equal_by_contents)) (around_faithful (λ (v : Self). v.2) C.equal_by_contents)) (around_faithful (λ (v : Self). v.3) D.equal_by_contents)) };
}

impl<A: Faithful, B: Faithful, C: Faithful, D: Faithful, E: Faithful> Faithful for (A, B, C, D, E) {
    ghost equal_by_contents = { regrouped (λ (c : ((((A.Contents × B.Contents) × C.Contents) × D.Contents) × E.Contents)). (c.0.0.0.0, (c.0.0.0.1, (c.0.0.1, (c.0.1, (c.1, tt)))))) (λ (d : A.Contents × (B.Contents × (C.Contents × (D.Contents × (E.Contents × Unit {0}))))). ((((d.0, d.1.0), d.1.1.0), d.1.1.1.0), d.1.1.1.1.0)) (λ c. refl) (and_faithful (and_faithful (and_faithful (and_faithful (around_faithful (λ (v : Self). v.0) A.equal_by_contents) (around_faithful (λ (v : Self). v.1) B.equal_by_contents)) (around_faithful (λ (v : Self). v.2) C.equal_by_contents)) (around_faithful (λ (v : Self). v.3) D.equal_by_contents)) (around_faithful (λ (v : Self). v.4) E.equal_by_contents)) };
}

impl<A: Faithful, B: Faithful, C: Faithful, D: Faithful, E: Faithful, F: Faithful> Faithful
    for (A, B, C, D, E, F) {
    ghost equal_by_contents = { regrouped (λ (c : (((((A.Contents × B.Contents) × C.Contents) × D.Contents) × E.Contents) × F.Contents)). (c.0.0.0.0.0, (c.0.0.0.0.1, (c.0.0.0.1, (c.0.0.1, (c.0.1, (c.1, tt))))))) (λ (d : A.Contents × (B.Contents × (C.Contents × (D.Contents × (E.Contents × (F.Contents × Unit {0})))))). (((((d.0, d.1.0), d.1.1.0), d.1.1.1.0), d.1.1.1.1.0), d.1.1.1.1.1.0)) (λ c. refl) (and_faithful (and_faithful (and_faithful (and_faithful (and_faithful (around_faithful (λ (v : Self). v.0) A.equal_by_contents) (around_faithful (λ (v : Self). v.1) B.equal_by_contents)) (around_faithful (λ (v : Self). v.2) C.equal_by_contents)) (around_faithful (λ (v : Self). v.3) D.equal_by_contents)) (around_faithful (λ (v : Self). v.4) E.equal_by_contents)) (around_faithful (λ (v : Self). v.5) F.equal_by_contents)) };
}

impl<
    A: Faithful,
    B: Faithful,
    C: Faithful,
    D: Faithful,
    E: Faithful,
    F: Faithful,
    G: Faithful,
> Faithful for (A, B, C, D, E, F, G) {
    ghost equal_by_contents = { regrouped (λ (c : ((((((A.Contents × B.Contents) × C.Contents) × D.Contents) × E.Contents) × F.Contents) × G.Contents)). (c.0.0.0.0.0.0, (c.0.0.0.0.0.1, (c.0.0.0.0.1, (c.0.0.0.1, (c.0.0.1, (c.0.1, (c.1, tt)))))))) (λ (d : A.Contents × (B.Contents × (C.Contents × (D.Contents × (E.Contents × (F.Contents × (G.Contents × Unit {0}))))))). ((((((d.0, d.1.0), d.1.1.0), d.1.1.1.0), d.1.1.1.1.0), d.1.1.1.1.1.0), d.1.1.1.1.1.1.0)) (λ c. refl) (and_faithful (and_faithful (and_faithful (and_faithful (and_faithful (and_faithful (around_faithful (λ (v : Self). v.0) A.equal_by_contents) (around_faithful (λ (v : Self). v.1) B.equal_by_contents)) (around_faithful (λ (v : Self). v.2) C.equal_by_contents)) (around_faithful (λ (v : Self). v.3) D.equal_by_contents)) (around_faithful (λ (v : Self). v.4) E.equal_by_contents)) (around_faithful (λ (v : Self). v.5) F.equal_by_contents)) (around_faithful (λ (v : Self). v.6) G.equal_by_contents)) };
}

impl<
    A: Faithful,
    B: Faithful,
    C: Faithful,
    D: Faithful,
    E: Faithful,
    F: Faithful,
    G: Faithful,
    H: Faithful,
> Faithful for (A, B, C, D, E, F, G, H) {
    ghost equal_by_contents = { regrouped (λ (c : (((((((A.Contents × B.Contents) × C.Contents) × D.Contents) × E.Contents) × F.Contents) × G.Contents) × H.Contents)). (c.0.0.0.0.0.0.0, (c.0.0.0.0.0.0.1, (c.0.0.0.0.0.1, (c.0.0.0.0.1, (c.0.0.0.1, (c.0.0.1, (c.0.1, (c.1, tt))))))))) (λ (d : A.Contents × (B.Contents × (C.Contents × (D.Contents × (E.Contents × (F.Contents × (G.Contents × (H.Contents × Unit {0})))))))). (((((((d.0, d.1.0), d.1.1.0), d.1.1.1.0), d.1.1.1.1.0), d.1.1.1.1.1.0), d.1.1.1.1.1.1.0), d.1.1.1.1.1.1.1.0)) (λ c. refl) (and_faithful (and_faithful (and_faithful (and_faithful (and_faithful (and_faithful (and_faithful (around_faithful (λ (v : Self). v.0) A.equal_by_contents) (around_faithful (λ (v : Self). v.1) B.equal_by_contents)) (around_faithful (λ (v : Self). v.2) C.equal_by_contents)) (around_faithful (λ (v : Self). v.3) D.equal_by_contents)) (around_faithful (λ (v : Self). v.4) E.equal_by_contents)) (around_faithful (λ (v : Self). v.5) F.equal_by_contents)) (around_faithful (λ (v : Self). v.6) G.equal_by_contents)) (around_faithful (λ (v : Self). v.7) H.equal_by_contents)) };
}

impl<
    A: Faithful,
    B: Faithful,
    C: Faithful,
    D: Faithful,
    E: Faithful,
    F: Faithful,
    G: Faithful,
    H: Faithful,
    I: Faithful,
> Faithful for (A, B, C, D, E, F, G, H, I) {
    ghost equal_by_contents = { regrouped (λ (c : ((((((((A.Contents × B.Contents) × C.Contents) × D.Contents) × E.Contents) × F.Contents) × G.Contents) × H.Contents) × I.Contents)). (c.0.0.0.0.0.0.0.0, (c.0.0.0.0.0.0.0.1, (c.0.0.0.0.0.0.1, (c.0.0.0.0.0.1, (c.0.0.0.0.1, (c.0.0.0.1, (c.0.0.1, (c.0.1, (c.1, tt)))))))))) (λ (d : A.Contents × (B.Contents × (C.Contents × (D.Contents × (E.Contents × (F.Contents × (G.Contents × (H.Contents × (I.Contents × Unit {0}))))))))). ((((((((d.0, d.1.0), d.1.1.0), d.1.1.1.0), d.1.1.1.1.0), d.1.1.1.1.1.0), d.1.1.1.1.1.1.0), d.1.1.1.1.1.1.1.0), d.1.1.1.1.1.1.1.1.0)) (λ c. refl) (and_faithful (and_faithful (and_faithful (and_faithful (and_faithful (and_faithful (and_faithful (and_faithful (around_faithful (λ (v : Self). v.0) A.equal_by_contents) (around_faithful (λ (v : Self). v.1) B.equal_by_contents)) (around_faithful (λ (v : Self). v.2) C.equal_by_contents)) (around_faithful (λ (v : Self). v.3) D.equal_by_contents)) (around_faithful (λ (v : Self). v.4) E.equal_by_contents)) (around_faithful (λ (v : Self). v.5) F.equal_by_contents)) (around_faithful (λ (v : Self). v.6) G.equal_by_contents)) (around_faithful (λ (v : Self). v.7) H.equal_by_contents)) (around_faithful (λ (v : Self). v.8) I.equal_by_contents)) };
}

impl<
    A: Faithful,
    B: Faithful,
    C: Faithful,
    D: Faithful,
    E: Faithful,
    F: Faithful,
    G: Faithful,
    H: Faithful,
    I: Faithful,
    J: Faithful,
> Faithful for (A, B, C, D, E, F, G, H, I, J) {
    ghost equal_by_contents = { regrouped (λ (c : (((((((((A.Contents × B.Contents) × C.Contents) × D.Contents) × E.Contents) × F.Contents) × G.Contents) × H.Contents) × I.Contents) × J.Contents)). (c.0.0.0.0.0.0.0.0.0, (c.0.0.0.0.0.0.0.0.1, (c.0.0.0.0.0.0.0.1, (c.0.0.0.0.0.0.1, (c.0.0.0.0.0.1, (c.0.0.0.0.1, (c.0.0.0.1, (c.0.0.1, (c.0.1, (c.1, tt))))))))))) (λ (d : A.Contents × (B.Contents × (C.Contents × (D.Contents × (E.Contents × (F.Contents × (G.Contents × (H.Contents × (I.Contents × (J.Contents × Unit {0})))))))))). (((((((((d.0, d.1.0), d.1.1.0), d.1.1.1.0), d.1.1.1.1.0), d.1.1.1.1.1.0), d.1.1.1.1.1.1.0), d.1.1.1.1.1.1.1.0), d.1.1.1.1.1.1.1.1.0), d.1.1.1.1.1.1.1.1.1.0)) (λ c. refl) (and_faithful (and_faithful (and_faithful (and_faithful (and_faithful (and_faithful (and_faithful (and_faithful (and_faithful (around_faithful (λ (v : Self). v.0) A.equal_by_contents) (around_faithful (λ (v : Self). v.1) B.equal_by_contents)) (around_faithful (λ (v : Self). v.2) C.equal_by_contents)) (around_faithful (λ (v : Self). v.3) D.equal_by_contents)) (around_faithful (λ (v : Self). v.4) E.equal_by_contents)) (around_faithful (λ (v : Self). v.5) F.equal_by_contents)) (around_faithful (λ (v : Self). v.6) G.equal_by_contents)) (around_faithful (λ (v : Self). v.7) H.equal_by_contents)) (around_faithful (λ (v : Self). v.8) I.equal_by_contents)) (around_faithful (λ (v : Self). v.9) J.equal_by_contents)) };
}

impl<K: DeserializeKey, T: Faithful> Faithful for BTreeMap<K, T> {
    ghost equal_by_contents = { around_faithful (λ (m : Self). m.entries) (keyed_faithful (key_faithful K.text_of K.matches_eq K.in_order) T.equal_by_contents) };
}
