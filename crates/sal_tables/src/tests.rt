//! The order of each table's indexes.

use crate::{
    Entry, ac_steps, bands, dc_steps, default_coefficients, default_vectors,
    subblock_probabilities, token_tree, update_coefficients, update_vectors,
};

#[test]
fn digits_by_their_indexes(rt: HostRuntime) {
    // Type 1, band 2, context 1, place 3, and type 3, band 7, context 0, place 1.
    assert_eq!(rt; default_coefficients()[((1 * 8 + 2) * 3 + 1) * 11 + 3], 250);
    assert_eq!(rt; default_coefficients()[((3 * 8 + 7) * 3) * 11 + 1], 1);
    assert_eq!(rt; update_coefficients()[((2 * 8 + 1) * 3 + 1) * 11], 236);
    // Place 7 of the row, and of the column.
    assert_eq!(rt; default_vectors()[7], 39);
    assert_eq!(rt; default_vectors()[19 + 7], 230);
    assert_eq!(rt; update_vectors()[19], 231);
    // Mode above 3, mode left 4, place 5.
    assert_eq!(rt; subblock_probabilities()[(3 * 10 + 4) * 9 + 5], 1);
    assert_eq!(rt; (dc_steps()[127], ac_steps()[127]), (157, 284));
    assert_eq!(rt; (dc_steps()[0], ac_steps()[55]), (4, 60));
    assert_eq!(rt; bands()[4], 6);
    assert_eq!(rt; token_tree().entries[7], Entry::Pair(12));
}
