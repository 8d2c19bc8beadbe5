// Cases as text: a section is cases with a semicolon after each. So a case costs the check nothing, where a call for
// each would cost it a third of a second.
use cases::show;

// A case: its name, numbers with a space between them, and what else is given, with a bar between the three; and where
// its line is printed.
#[derive(Drop)]
pub struct Case<'a, P: Print> {
    pub out: &'a P,
    pub name: &'a str,
    pub numbers: [usize; 8],
    pub rest: &'a str,
}

// Decimal numbers; those that are not there are 0.
fn numbers_of(text: &str) -> Option<[usize; 8]> {
    let mut numbers = [0; 8];
    for (number, word) in numbers.iter_mut().zip(text.split(' ')) {
        *number = word.parse().ok()?;
    }
    Some(numbers)
}

fn case_of<'a, P: Print>(out: &'a P, text: &'a str) -> Option<Case<'a, P>> {
    let (name, text) = text.split_once('|')?;
    let (numbers, rest) = text.split_once('|').unwrap_or((text, ""));
    let numbers = numbers_of(numbers)?;
    Some(Case {
        out,
        name,
        numbers,
        rest,
    })
}

// Each case of a section is asked; nothing is what is no case, or lends more than there is.
pub fn ask_each<P: Print, F: Fn(Case<'_, P>) -> Option<()>>(out: &P, ask: F, cases: &str)
    requires { F.IsAlwaysCallable ask }
{
    for text in cases.split_terminator(';') {
        if case_of(out, text).and_then(|case| ask(case)).is_none() {
            show::not_asked(out);
        }
    }
}

// A shadow of eight granules, two digits each.
pub fn shadow_of(text: &str) -> Option<[u8; 8]> {
    let number = u64::from_str_radix(text, 16).ok()?;
    Some(number.to_be_bytes())
}
