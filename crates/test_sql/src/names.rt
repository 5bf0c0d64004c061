//! Names: full texts, equality, order and hashes (PostgreSQL manual, section 4.1.1).

use crate::rows::{Reading, compare, compare_each};
use case_format::TextBuilder;
use sql_read::{FullName, Name};
use std::alloc::Global;
use std::cmp::Ordering;
use std::collections::HashSet;
use std::hash::{DefaultHasher, Hash, Hasher};

/// A name as it is written, and its full text.
const FULL: &[(&str, &str)] = &[
    ("Users", "users"),
    ("\"Users\"", "Users"),
    ("\"A\"\"b\"", "A\"b"),
    ("\"\"\"\"", "\""),
    ("\"\"", ""),
    ("_A$1", "_a$1"),
    ("ÀB", "Àb"),
    ("\"ÀB\"", "ÀB"),
    ("\"é\"\"É\"", "é\"É"),
    (LONG, LONG),
];

/// A name of 64 letters, and the 63 of them that are kept.
const LONG: &str = "aaaaaaaaaaaaaaaaaaaaaaaaaaaaaaaaaaaaaaaaaaaaaaaaaaaaaaaaaaaaaabc";

const CUT: &str = "aaaaaaaaaaaaaaaaaaaaaaaaaaaaaaaaaaaaaaaaaaaaaaaaaaaaaaaaaaaaaab";

const LETTERS: &str = "aaaaaaaaaaaaaaaaaaaaaaaaaaaaaaaaaaaaaaaaaaaaaaaaaaaaaaaaaaaaaa";

fn hash_of<T: Hash>(value: &T) -> u64 {
    let mut state = DefaultHasher::new();
    value.hash(&mut state);
    state.finish()
}

// How both are there to each other, by each call that compares.
fn show_order<T: Ord + Hash>(left: &T, right: &T, out: &mut TextBuilder) {
    let order = left.cmp(right);
    let is_same = order == Ordering::Equal;
    out.debug("", &order);
    out.push_if(
        right.cmp(left) != order.reverse(),
        " but not the other way round",
    );
    out.push_if(left.partial_cmp(right) != Some(order), " but not partly");
    out.push_if((left == right) != is_same, " but not by equality");
    out.push_if(
        (right == left) != is_same,
        " but not by equality the other way round",
    );
    out.push_if(
        (hash_of(left) == hash_of(right)) != is_same,
        " but not by hash",
    );
}

// How two names are there to each other: by what is kept of both, and by their full texts.
fn show_orders(left: &str, right: &str, out: &mut TextBuilder) {
    show_order(&Name::of(left), &Name::of(right), out);
    out.add(" ");
    show_order(&FullName::of(left), &FullName::of(right), out);
}

/// The full text of a name, which the name itself says it is.
struct Names;

impl Reading for Names {
    fn read(&self, text: &str, out: &mut TextBuilder) {
        let name = Name::of(text);
        match name.folded(out.alloc()) {
            Ok(full) => {
                out.add(full.as_str());
                out.push_if(!name.is(full.as_str()), " which it is not");
                out.push_if(name.text() != text, " of another name");
            }
            Err(_) => out.fail(),
        }
    }
}

/// The same by the other type of names.
struct FullNames;

impl Reading for FullNames {
    fn read(&self, text: &str, out: &mut TextBuilder) {
        let name = FullName::of(text);
        match name.folded(out.alloc()) {
            Ok(full) => {
                out.add(full.as_str());
                out.push_if(!name.is(full.as_str()), " which it is not");
                out.push_if(name.text() != text, " of another name");
            }
            Err(_) => out.fail(),
        }
    }
}

#[test]
fn full_texts(rt: HostRuntime) {
    compare(&rt, rt.alloc(), &Names, FULL);
    compare(&rt, rt.alloc(), &FullNames, FULL);
}

/// A name, and whether a text is its full text by each type of names.
struct Written(&'static str);

impl Reading for Written {
    fn read(&self, text: &str, out: &mut TextBuilder) {
        out.push_if(Name::of(self.0).is(text), "full text");
        out.push_if(FullName::of(self.0).is(text), "full text of a full name");
    }
}

/// A name, and a text that is not its full text, of which nothing is said.
const OTHER: &[(Written, &str, &str)] = &[
    (Written("Users"), "Users", ""),
    (Written("\"Users\""), "users", ""),
    (Written("users"), "user", ""),
    (Written("user"), "users", ""),
    (Written("\"a\"\"b\""), "a\"\"b", ""),
    (Written(""), "a", ""),
    (Written(LONG), CUT, ""),
];

#[test]
fn other_texts(rt: HostRuntime) {
    compare_each(&rt, rt.alloc(), OTHER);
}

/// The first one of two names.
struct Left(&'static str);

impl Reading for Left {
    fn read(&self, text: &str, out: &mut TextBuilder) {
        show_orders(self.0, text, out);
    }
}

const LESS: &str = "Less Less";

const SAME: &str = "Equal Equal";

const MORE: &str = "Greater Greater";

/// Two names, and how the first compares with the second: by what is kept of both, and by their full texts.
const ORDER: &[(Left, &str, &str)] = &[
    (Left("public"), "PUBLIC", SAME),
    (Left("public"), "\"public\"", SAME),
    (Left("PUBLIC"), "\"public\"", SAME),
    (Left("public"), "\"PUBLIC\"", MORE),
    (Left("\"a\"\"b\""), "\"a\"\"b\"", SAME),
    (Left("\"a\"\"b\""), "\"ab\"", LESS),
    (Left("\"a\""), "ab", LESS),
    (Left("é"), "É", MORE),
    (Left("\"é\""), "é", SAME),
    (Left("a"), "b", LESS),
    (Left("B"), "a", MORE),
    (Left("\"B\""), "a", LESS),
    (Left("a"), "ab", LESS),
    (Left("\"ab\""), "A", MORE),
    (Left("z"), "é", LESS),
    (Left("_"), "a", LESS),
    (Left("Users"), "\"users\"", SAME),
    (Left("\"\""), "", SAME),
];

#[test]
fn order(rt: HostRuntime) {
    compare_each(&rt, rt.alloc(), ORDER);
}

/// The first one of two long names, by its quotes and by its ending, and the quotes of the other one.
struct Long {
    quote: &'static str,
    ending: &'static str,
    other_quote: &'static str,
}

// A name of 62 letters and this ending, between these quotes.
fn made(alloc: Global, quote: &str, ending: &str) -> TextBuilder {
    let mut name = TextBuilder::new(alloc);
    name.add(quote);
    name.add(LETTERS);
    name.add(ending);
    name.add(quote);
    name
}

impl Reading for Long {
    fn read(&self, text: &str, out: &mut TextBuilder) {
        let left = made(out.alloc(), self.quote, self.ending);
        let right = made(out.alloc(), self.other_quote, text);
        match (left.text(), right.text()) {
            (Some(left), Some(right)) => show_orders(left, right, out),
            _ => out.fail(),
        }
    }
}

/// Two names, each by its quotes and by what comes after 62 letters, and how the first name compares with the second.
const CUTS: &[(Long, &str, &str)] = &[
    (
        Long {
            quote: "",
            ending: "b",
            other_quote: "",
        },
        "b",
        "Equal Equal",
    ),
    (
        Long {
            quote: "",
            ending: "b",
            other_quote: "",
        },
        "c",
        "Less Less",
    ),
    (
        Long {
            quote: "",
            ending: "b",
            other_quote: "",
        },
        "bc",
        "Equal Less",
    ),
    (
        Long {
            quote: "",
            ending: "bc",
            other_quote: "",
        },
        "bd",
        "Equal Less",
    ),
    (
        Long {
            quote: "",
            ending: "bc",
            other_quote: "",
        },
        "cc",
        "Less Less",
    ),
    (
        Long {
            quote: "",
            ending: "é",
            other_quote: "",
        },
        "",
        "Equal Greater",
    ),
    (
        Long {
            quote: "",
            ending: "é",
            other_quote: "",
        },
        "ü",
        "Equal Less",
    ),
    (
        Long {
            quote: "",
            ending: "é",
            other_quote: "",
        },
        "b",
        "Less Greater",
    ),
    (
        Long {
            quote: "",
            ending: "é",
            other_quote: "",
        },
        "日本",
        "Equal Less",
    ),
    (
        Long {
            quote: "",
            ending: "bé",
            other_quote: "",
        },
        "b日",
        "Equal Less",
    ),
    (
        Long {
            quote: "",
            ending: "Bé",
            other_quote: "",
        },
        "b日",
        "Equal Less",
    ),
    (
        Long {
            quote: "\"",
            ending: "b",
            other_quote: "",
        },
        "b",
        "Equal Equal",
    ),
    (
        Long {
            quote: "\"",
            ending: "b",
            other_quote: "",
        },
        "c",
        "Less Less",
    ),
    (
        Long {
            quote: "\"",
            ending: "b",
            other_quote: "",
        },
        "bc",
        "Equal Less",
    ),
    (
        Long {
            quote: "\"",
            ending: "bc",
            other_quote: "",
        },
        "bd",
        "Equal Less",
    ),
    (
        Long {
            quote: "\"",
            ending: "bc",
            other_quote: "",
        },
        "cc",
        "Less Less",
    ),
    (
        Long {
            quote: "\"",
            ending: "é",
            other_quote: "",
        },
        "",
        "Equal Greater",
    ),
    (
        Long {
            quote: "\"",
            ending: "é",
            other_quote: "",
        },
        "ü",
        "Equal Less",
    ),
    (
        Long {
            quote: "\"",
            ending: "é",
            other_quote: "",
        },
        "b",
        "Less Greater",
    ),
    (
        Long {
            quote: "\"",
            ending: "é",
            other_quote: "",
        },
        "日本",
        "Equal Less",
    ),
    (
        Long {
            quote: "\"",
            ending: "bé",
            other_quote: "",
        },
        "b日",
        "Equal Less",
    ),
    (
        Long {
            quote: "\"",
            ending: "Bé",
            other_quote: "",
        },
        "b日",
        "Less Less",
    ),
    // Two doubled quotes at the end of what is kept.
    (
        Long {
            quote: "\"",
            ending: "\"\"x",
            other_quote: "\"",
        },
        "\"\"y",
        "Equal Less",
    ),
];

#[test]
fn cut_names(rt: HostRuntime) {
    compare_each(&rt, rt.alloc(), CUTS);
}

fn show_insert<'a>(set: &mut HashSet<Name<'a>>, name: &'a str, out: &mut TextBuilder) {
    match set.insert(Name::of(name)) {
        Ok(true) => out.add("new "),
        Ok(false) => out.add("there "),
        Err(_) => out.fail(),
    }
}

/// A set to which three names are added, and whether it has a name in the end.
struct Adding;

impl Reading for Adding {
    fn read(&self, text: &str, out: &mut TextBuilder) {
        let mut set = HashSet::new(out.alloc());
        show_insert(&mut set, "Users", out);
        show_insert(&mut set, "\"users\"", out);
        show_insert(&mut set, "\"Users\"", out);
        out.debug("", &set.len());
        out.push_if(set.contains(&Name::of(text)), " with it");
    }
}

/// A name, and of each name that is added whether it is new, then how many there are, and whether the first one is one of them.
const SETS: &[(&str, &str)] = &[
    ("USERS", "new there new 2 with it"),
    ("user", "new there new 2"),
];

#[test]
fn sets(rt: HostRuntime) {
    compare(&rt, rt.alloc(), &Adding, SETS);
    assert!(rt; Name::default() == Name::of("\"\""));
}
