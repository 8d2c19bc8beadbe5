// Where a block goes: windows that just fit and that just do not, held neighbours on either side, and long shadows.
use cases::case::Case;
use cases::tables;

// R and u stand in the third and the fourth word, and the place in the word given. The most granules are those of the
// largest size there is.
fn place(case: &Case<'_, impl Print>, shadow: &[u8], word: usize) {
    let redzone = case.given(2);
    let granules = case.given(3);
    let answered = (redzone <= 256 && granules <= 536_870_912).then(|| places::place(
        shadow, redzone, granules,
    ));
    case.outcome(case.same_found(case.asked(answered, None), word));
}

pub fn in_free(case: &Case<'_, impl Print>) -> Option<()> {
    let shadow = [0xfa; 513];
    let length: usize = case.given(1);
    place(case, shadow.get(..length)?, 4);
    Some(())
}

pub fn in_part(case: &Case<'_, impl Print>) {
    let mut room = [0; 16];
    place(case, tables::bytes_of(case.from(1), &mut room), 4);
}

// A block is held from granule 0 on, and then one granule more.
pub fn in_longest(case: &Case<'_, impl Print>) {
    let mut shadow = [0xfa; 65536];
    paint::row(&mut shadow, 0, case.given(1), 0x00);
    place(case, &shadow, 4);
    paint::row(&mut shadow, case.given(5), 8, 0x00);
    place(case, &shadow, 6);
}

// Every fifth granule is held, the first at 4.
pub fn in_scattered(case: &Case<'_, impl Print>) {
    let mut shadow = [0xfa; 65536];
    for five in shadow.chunks_exact_mut(5) {
        five[4] = 0x00;
    }
    place(case, &shadow, 4);
}
