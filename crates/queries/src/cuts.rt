//! A text cut at a mark.
ghost use Rattle.std.specs.Prelude.{◌≡◌, Some, None, MatchOption, option_map};
ghost use Rattle.queries.specs.Cuts.{behind_front, closed_behind, cut, cut_closed, cut_first, is_closed};

/// What stands before and behind the last place of the mark in the text.
pub fn cut<'a>(text: &'a [u8], mark: &[u8]) -> Option<(&'a [u8], &'a [u8])>
    ensures { MatchOption result
        (cut mark.now text.now ≡ None)
        (λ parts. cut mark.now text.now ≡ Some (parts.0.now, parts.1.now)) }
{
    let mut end = text.len();
    while end > 0 {
        end -= 1;
        let (front, rest) = text.split_at(end);
        if rest.starts_with(mark) {
            let (_, behind) = rest.split_at(mark.len());
            return Some((front, behind));
        }
    }
    None
}

/// The same of the last place behind which each double quote is closed.
pub fn cut_closed<'a>(text: &'a [u8], mark: &[u8]) -> Option<(&'a [u8], &'a [u8])>
    ensures { MatchOption result
        (cut_closed mark.now text.now ≡ None)
        (λ parts. cut_closed mark.now text.now ≡ Some (parts.0.now, parts.1.now)) }
{
    let mut place = text.len();
    while place > 0 {
        place -= 1;
        let (front, rest) = text.split_at(place);
        if let Some(end) = closed_behind(rest, mark) {
            return Some((front, end));
        }
    }
    None
}

// What stands behind the mark, where the text begins with it and each double quote behind it is closed.
fn closed_behind<'a>(text: &'a [u8], mark: &[u8]) -> Option<&'a [u8]>
    ensures { option_map (λ behind. behind.now) result ≡ closed_behind mark.now text.now }
{
    let behind = behind_front(text, mark)?;
    if is_closed(behind) {
        Some(behind)
    } else {
        None
    }
}

// Whether each double quote in the text is closed.
fn is_closed(text: &[u8]) -> bool
    ensures { result ≡ is_closed text.now }
{
    text.iter().filter(|byte| **byte == b'"').count() % 2 == 0
}

/// What stands before and behind the first place of the mark in the text.
pub fn cut_first<'a>(text: &'a [u8], mark: &[u8]) -> Option<(&'a [u8], &'a [u8])>
    ensures { MatchOption result
        (cut_first mark.now text.now ≡ None)
        (λ parts. cut_first mark.now text.now ≡ Some (parts.0.now, parts.1.now)) }
{
    for place in 0..text.len() {
        let (front, rest) = text.split_at(place);
        if rest.starts_with(mark) {
            let (_, after) = rest.split_at(mark.len());
            return Some((front, after));
        }
    }
    None
}

/// What stands behind the mark, where the text begins with it.
pub fn behind_front<'a>(text: &'a [u8], mark: &[u8]) -> Option<&'a [u8]>
    ensures { option_map (λ behind. behind.now) result ≡ behind_front mark.now text.now }
{
    if !text.starts_with(mark) {
        return None;
    }
    let (_, behind) = text.split_at(mark.len());
    Some(behind)
}
