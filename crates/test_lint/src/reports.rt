//! What is tested of places, texts, edits, fixes and reports.
ghost use Rattle.std.specs.Prelude.{◌≡◌, ◌≤◌};

use lint_track::{Edit, Fix, LinterSettings, Names, Reports, Rule, Text, Violation};
use sql_read::{LineEnding, LineIndex, TextRange, TextSize, line_ending};
use std::hash::{DefaultHasher, Hash, Hasher};
use std::process::Abort;
use std::test::Fail;

fn range(start: u32, end: u32) -> TextRange
    requires { start ≤ end }
    ensures { result ≡ record { start = start; end = end } }
{
    TextRange::new(TextSize::new(start), TextSize::new(end))
}

/// A text, a place in it, and the line that the place is in.
const LINES: [(&str, u32, u32); 5] = [
    ("a\nb\n", 0, 0),
    ("a\nb\n", 1, 0),
    ("a\nb\n", 2, 1),
    ("a\nb\n", 4, 2),
    ("", 0, 0),
];

#[test]
fn lines_are_counted(rt: HostRuntime) -> Result<(), Fail> {
    for (text, place, line) in &LINES {
        let index = LineIndex::new(rt.alloc(), *text)?;
        assert!(rt; index.line(TextSize::new(*place)) == *line);
    }
    Ok(())
}

// Texts, how their lines end, and the bytes of that.
const ENDINGS: [(&str, LineEnding, &str); 7] = [
    ("", LineEnding::Lf, "\n"),
    ("a\rb", LineEnding::Lf, "\n"),
    ("\n", LineEnding::Lf, "\n"),
    ("a\r\nb\n", LineEnding::CrLf, "\r\n"),
    ("a\nb\r\n", LineEnding::Lf, "\n"),
    ("\r\n", LineEnding::CrLf, "\r\n"),
    ("\n\r", LineEnding::Lf, "\n"),
];

#[test]
fn line_endings_are_found(rt: HostRuntime) -> Result<(), Fail> {
    for (text, ending, bytes) in &ENDINGS {
        let found = line_ending(text);
        assert!(rt; found == *ending && found.as_str() == *bytes);
    }
    Ok(())
}

/// A range, and whether it is in 2..7.
const INSIDE: [(u32, u32, bool); 5] = [
    (2, 7, true),
    (7, 7, true),
    (1, 3, false),
    (6, 8, false),
    (1, 8, false),
];

#[test]
fn ranges_are_measured(rt: HostRuntime) {
    let outer = range(2, 7);
    assert!(rt; outer.len() == TextSize::new(5) && !outer.is_empty() && range(3, 3).is_empty());
    for (start, end, is_inside) in &INSIDE {
        assert!(rt; *start <= *end);
        assert_eq!(rt; outer.contains_range(range(*start, *end)), *is_inside);
    }
}

// An item at this place is greater than those of the places before, equal to itself alone, and less than the others.
fn is_at<T: Ord>(rt: &impl Abort, items: &[T], item: &T, at: usize) {
    for (other_at, other) in items.iter().enumerate() {
        assert_eq!(rt; item.cmp(other), at.cmp(&other_at));
        assert_eq!(rt; item == other, at == other_at);
    }
}

// Each is less than the next one, and equal to itself alone.
fn ascend<T: Ord>(rt: &impl Abort, items: &[T]) {
    for (at, item) in items.iter().enumerate() {
        is_at(rt, items, item, at);
    }
}

fn hash_of(text: &Text) -> u64 {
    let mut state = DefaultHasher::new();
    text.hash(&mut state);
    state.finish()
}

const TEXTS: [&str; 4] = [
    "",
    "a text of more than thirty-two bytes",
    "naïve \u{1f600}",
    "x",
];

// However a text was made.
fn is_text_of(rt: &impl Abort, text: &str, made: &Text, fixed: &Text) {
    assert!(rt; fixed.as_str() == text && made.as_str() == text);
    assert!(rt; *fixed == *made && hash_of(fixed) == hash_of(made));
}

#[test]
fn texts_go_by_their_bytes(rt: HostRuntime) -> Result<(), Fail> {
    for text in &TEXTS {
        let made = Text::made(String::from_str(rt.alloc(), *text)?);
        is_text_of(&rt, text, &made, &Text::fixed(*text));
    }
    Ok(())
}

#[test]
fn texts_are_in_order(rt: HostRuntime) -> Result<(), Fail> {
    let made = Text::made(String::from_str(rt.alloc(), "abc")?);
    ascend(&rt, &[Text::fixed("ab"), made, Text::fixed("abd")]);
    Ok(())
}

// By their starts, then by their ends, then by their texts, where no text comes first.
#[test]
fn edits_go_by_start_end_and_text(rt: HostRuntime) {
    ascend(
        &rt,
        &[
            Edit::insert(Text::fixed("z"), TextSize::new(2)),
            Edit::replace(range(2, 4), Text::fixed("z")),
            Edit::delete(range(2, 5)),
            Edit::replace(range(2, 5), Text::fixed("")),
            Edit::delete(range(3, 3)),
        ],
    );
}

#[test]
fn edits_are_equal_by_their_texts(rt: HostRuntime) -> Result<(), Fail> {
    let made = Text::made(String::from_str(rt.alloc(), "a")?);
    assert!(rt; Edit::replace(range(2, 5), Text::fixed("a")) == Edit::replace(range(2, 5), made));
    Ok(())
}

#[test]
fn fixes_go_by_title_and_edits(rt: HostRuntime) -> Result<(), Fail> {
    let mut edits = Vec::new(rt.alloc());
    edits.push(Edit::delete(range(0, 1)))?;
    let fixes = [
        Fix {
            title: Text::fixed("a"),
            edits: Vec::new(rt.alloc()),
        },
        Fix {
            title: Text::fixed("a"),
            edits,
        },
        Fix {
            title: Text::fixed("b"),
            edits: Vec::new(rt.alloc()),
        },
    ];
    ascend(&rt, &fixes);
    Ok(())
}

#[test]
fn names_are_listed(rt: HostRuntime) -> Result<(), Fail> {
    let mut names = Names::standard(rt.alloc())?;
    assert!(rt; names.len() == 7 && names.get(6) == "pi" && !names.contains("random"));
    names.push("random")?;
    assert!(rt; names.contains("random") && names.len() == 8 && names.get(7) == "random");
    let settings = LinterSettings {
        pg_version: [15, 0, 0],
        assume_in_transaction: false,
        non_volatile: names,
    };
    assert!(rt; settings.non_volatile.contains("now"));
    Ok(())
}

#[test]
fn reports_are_listed(rt: HostRuntime) -> Result<(), Fail> {
    let mut reports = Reports::new(rt.alloc());
    assert!(rt; reports.items().is_empty());
    reports.push(Violation::for_range(Rule::BanDropTable, Text::fixed("a"), range(0, 4)))?;
    let mut more = Reports::new(rt.alloc());
    more.push(Violation::for_node(
        Rule::BanDropColumn,
        Text::fixed("b"),
        TextSize::new(3),
        range(1, 4),
    ))?;
    reports.append(more)?;
    assert!(rt; reports.items().len() == 2);
    let items = reports.into_items();
    assert!(rt; items.len() == 2 && items[0].code == Rule::BanDropTable);
    assert!(rt; items[1].text_range == range(3, 4) && items[1].fix.is_none());
    Ok(())
}
