//! What a load tells of a wrong hit that it met over a device that goes back.

/// What its report tells before that hit.
const WRONG: &str = "\nrefused 0\nwrong-hits 1\nwrong-hit-of-caller-0 key 0000";

/// The line of the wrong hit of the first caller, without its name; none if there is none.
fn hit_told(text: &str) -> Option<&str> {
    for line in text.lines() {
        if let Some(told) = line.strip_prefix("wrong-hit-of-caller-0 ") {
            return Some(told);
        }
    }
    None
}

/// The word that stands at a place of a text.
fn word_at(text: &str, place: usize) -> &str {
    text.split(' ').nth(place).unwrap_or("")
}

/// Whether a page that goes back gave an older value of the key than the one that was expected: key, operation, expected and found
/// are told so. Each value begins with its key's number and that of the operation that put it, of four bytes each.
fn is_older(told: &str) -> bool {
    let (key, expected, found) = (word_at(told, 1), word_at(told, 5), word_at(told, 7));
    let (Some(number), Some(front)) = (key.get(4..12), found.get(..16)) else {
        return false;
    };
    key.len() == 20
        && word_at(told, 3).parse::<u32>().is_ok()
        && front.starts_with(number)
        && (expected == "none" || expected.starts_with(number) && front < expected)
}

/// Whether a load over a device that goes back ended with a wrong hit, which its report counts and tells, and the other output too.
pub fn is_caught(out: &str, err: &str) -> bool {
    let told = hit_told(out);
    err.starts_with("a hit was wrong\nwrong-hit-of-caller-0 key ")
        && out.starts_with("operations ")
        && out.contains(WRONG)
        && told == hit_told(err)
        && told.is_some_and(is_older)
}
