//! Options, lists, tuples and maps round-trip if their parts do.

ghost use Rattle.std.specs.Prelude.{⊤};
ghost use Rattle.ipld_de.specs.Law.{OptionPlain, ListPlain, EntriesPlain};
ghost use Rattle.ipld_de.specs.Lemmas.LawOf.{around_round_trip, option_round_trip, list_round_trip, array_round_trip, unsigned_round_trip, end_parts, first_part, tuple_round_trip, keyed_round_trip};

use crate::key::DeserializeKey;
use crate::lawful::Lawful;
use std::collections::BTreeMap;

/// `None` is plain, and `Some` of a plain value whose image is not Null.
impl<T: Lawful> Lawful for Option<T> {
    ghost plain = { OptionPlain T.image T.plain };

    ghost round_trip = { option_round_trip T.round_trip };
}

/// Plain if every element is.
impl<T: Lawful> Lawful for Vec<T> {
    ghost plain = { λ v. ListPlain T.plain v.items };

    ghost round_trip = { around_round_trip (λ (v : Self). v.items) (list_round_trip T.round_trip) };
}

/// Plain if every element is.
impl<const N: usize> Lawful for [u8; N] {
    ghost plain = { ListPlain (λ _. ⊤) };

    ghost round_trip = { array_round_trip N (unsigned_round_trip 8) };
}

/// Plain if the part is.
impl<A: Lawful> Lawful for (A,) {
    ghost plain = { λ v. A.plain v.0 × ⊤ };

    ghost round_trip = { tuple_round_trip (λ (v : Self). (v.0, tt)) (first_part A.round_trip end_parts) };
}

/// Plain if both are.
impl<A: Lawful, B: Lawful> Lawful for (A, B) {
    ghost plain = { λ v. A.plain v.0 × (B.plain v.1 × ⊤) };

    ghost round_trip = { tuple_round_trip (λ (v : Self). (v.0, (v.1, tt))) (first_part A.round_trip (first_part B.round_trip end_parts)) };
}

/// Plain if all three are.
impl<A: Lawful, B: Lawful, C: Lawful> Lawful for (A, B, C) {
    ghost plain = { λ v. A.plain v.0 × (B.plain v.1 × (C.plain v.2 × ⊤)) };

    ghost round_trip = { tuple_round_trip (λ (v : Self). (v.0, (v.1, (v.2, tt)))) (first_part A.round_trip (first_part B.round_trip (first_part C.round_trip end_parts))) };
}

/// Plain if all four are.
impl<A: Lawful, B: Lawful, C: Lawful, D: Lawful> Lawful for (A, B, C, D) {
    ghost plain = { λ v. A.plain v.0 × (B.plain v.1 × (C.plain v.2 × (D.plain v.3 × ⊤))) };

    ghost round_trip = { tuple_round_trip (λ (v : Self). (v.0, (v.1, (v.2, (v.3, tt))))) (first_part A.round_trip (first_part B.round_trip (first_part C.round_trip (first_part D.round_trip end_parts)))) };
}

/// Plain if all five are.
impl<A: Lawful, B: Lawful, C: Lawful, D: Lawful, E: Lawful> Lawful for (A, B, C, D, E) {
    ghost plain = { λ v. A.plain v.0 × (B.plain v.1 × (C.plain v.2 × (D.plain v.3 × (E.plain v.4 × ⊤)))) };

    ghost round_trip = { tuple_round_trip (λ (v : Self). (v.0, (v.1, (v.2, (v.3, (v.4, tt)))))) (first_part A.round_trip (first_part B.round_trip (first_part C.round_trip (first_part D.round_trip (first_part E.round_trip end_parts))))) };
}

/// Plain if all six are.
impl<A: Lawful, B: Lawful, C: Lawful, D: Lawful, E: Lawful, F: Lawful> Lawful
    for (A, B, C, D, E, F) {
    ghost plain = { λ v. A.plain v.0 × (B.plain v.1 × (C.plain v.2 × (D.plain v.3 × (E.plain v.4 × (F.plain v.5 × ⊤))))) };

    ghost round_trip = { tuple_round_trip (λ (v : Self). (v.0, (v.1, (v.2, (v.3, (v.4, (v.5, tt))))))) (first_part A.round_trip (first_part B.round_trip (first_part C.round_trip (first_part D.round_trip (first_part E.round_trip (first_part F.round_trip end_parts)))))) };
}

/// Plain if all seven are.
impl<A: Lawful, B: Lawful, C: Lawful, D: Lawful, E: Lawful, F: Lawful, G: Lawful> Lawful
    for (A, B, C, D, E, F, G) {
    ghost plain = { λ v. A.plain v.0 × (B.plain v.1 × (C.plain v.2 × (D.plain v.3 × (E.plain v.4 × (F.plain v.5 × (G.plain v.6 × ⊤)))))) };

    ghost round_trip = { tuple_round_trip (λ (v : Self). (v.0, (v.1, (v.2, (v.3, (v.4, (v.5, (v.6, tt)))))))) (first_part A.round_trip (first_part B.round_trip (first_part C.round_trip (first_part D.round_trip (first_part E.round_trip (first_part F.round_trip (first_part G.round_trip end_parts))))))) };
}

/// Plain if all eight are.
impl<A: Lawful, B: Lawful, C: Lawful, D: Lawful, E: Lawful, F: Lawful, G: Lawful, H: Lawful> Lawful
    for (A, B, C, D, E, F, G, H) {
    ghost plain = { λ v. A.plain v.0 × (B.plain v.1 × (C.plain v.2 × (D.plain v.3 × (E.plain v.4 × (F.plain v.5 × (G.plain v.6 × (H.plain v.7 × ⊤))))))) };

    ghost round_trip = { tuple_round_trip (λ (v : Self). (v.0, (v.1, (v.2, (v.3, (v.4, (v.5, (v.6, (v.7, tt))))))))) (first_part A.round_trip (first_part B.round_trip (first_part C.round_trip (first_part D.round_trip (first_part E.round_trip (first_part F.round_trip (first_part G.round_trip (first_part H.round_trip end_parts)))))))) };
}

/// Plain if all nine are.
impl<
    A: Lawful,
    B: Lawful,
    C: Lawful,
    D: Lawful,
    E: Lawful,
    F: Lawful,
    G: Lawful,
    H: Lawful,
    I: Lawful,
> Lawful for (A, B, C, D, E, F, G, H, I) {
    ghost plain = { λ v. A.plain v.0 × (B.plain v.1 × (C.plain v.2 × (D.plain v.3 × (E.plain v.4 × (F.plain v.5 × (G.plain v.6 × (H.plain v.7 × (I.plain v.8 × ⊤)))))))) };

    ghost round_trip = { tuple_round_trip (λ (v : Self). (v.0, (v.1, (v.2, (v.3, (v.4, (v.5, (v.6, (v.7, (v.8, tt)))))))))) (first_part A.round_trip (first_part B.round_trip (first_part C.round_trip (first_part D.round_trip (first_part E.round_trip (first_part F.round_trip (first_part G.round_trip (first_part H.round_trip (first_part I.round_trip end_parts))))))))) };
}

/// Plain if all ten are.
impl<
    A: Lawful,
    B: Lawful,
    C: Lawful,
    D: Lawful,
    E: Lawful,
    F: Lawful,
    G: Lawful,
    H: Lawful,
    I: Lawful,
    J: Lawful,
> Lawful for (A, B, C, D, E, F, G, H, I, J) {
    ghost plain = { λ v. A.plain v.0 × (B.plain v.1 × (C.plain v.2 × (D.plain v.3 × (E.plain v.4 × (F.plain v.5 × (G.plain v.6 × (H.plain v.7 × (I.plain v.8 × (J.plain v.9 × ⊤))))))))) };

    ghost round_trip = { tuple_round_trip (λ (v : Self). (v.0, (v.1, (v.2, (v.3, (v.4, (v.5, (v.6, (v.7, (v.8, (v.9, tt))))))))))) (first_part A.round_trip (first_part B.round_trip (first_part C.round_trip (first_part D.round_trip (first_part E.round_trip (first_part F.round_trip (first_part G.round_trip (first_part H.round_trip (first_part I.round_trip (first_part J.round_trip end_parts)))))))))) };
}

/// Plain if every value is.
impl<K: DeserializeKey, T: Lawful> Lawful for BTreeMap<K, T> {
    ghost plain = { λ m. EntriesPlain T.plain m.entries };

    ghost round_trip = { around_round_trip (λ (m : Self). m.entries) (keyed_round_trip K.text_of K.is_key T.round_trip) };
}
