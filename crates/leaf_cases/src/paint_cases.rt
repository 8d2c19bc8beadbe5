// The painter: a block's granules, a granted block, and a row's granules, with the whole shadow compared each time.
use cases::case::Case;

pub fn granules_of(case: &Case<'_, impl Print>) {
    let answered = paint::granules_of(case.given(1)) as u64;
    case.outcome(case.same_number(answered, 2));
}

pub fn grant(case: &Case<'_, impl Print>) {
    let mut shadow = [0xfa, 0xfb, 0xfa, 0xfb, 0xfa, 0xfb, 0xfa, 0xfb];
    let place: usize = case.given(1);
    let size = case.given(2);
    let end = place.saturating_add(paint::granules_of(size));
    let granted = (end <= shadow.len()).then(|| paint::grant(&mut shadow, place, size));
    case.asked(granted, ());
    case.outcome(case.same_shadow(&shadow, 3));
}

pub fn row(case: &Case<'_, impl Print>) {
    let mut shadow = [0x01, 0x02, 0x03, 0x04, 0x05, 0x06, 0x07, 0x08];
    paint::row(&mut shadow, case.given(1), case.given(2), case.given(3));
    case.outcome(case.same_shadow(&shadow, 4));
}
