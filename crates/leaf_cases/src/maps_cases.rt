// The two address maps, each on both sides of every line of its table.
use cases::case::Case;

pub fn one(case: &Case<'_, impl Print>) -> Option<()> {
    let address = case.number(1);
    let mapped = match case.letter(0, 1) {
        b'3' => maps::map32(address),
        b'6' => maps::map64(address),
        _ => return None,
    };
    let answered = [mapped.status as u64, mapped.region as u64, mapped.shadow];
    case.outcome(case.same_three(answered, [2, 3, 4]));
    Some(())
}
