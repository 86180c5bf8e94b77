//! `groups_as_python_does`: these texts are Python expressions too, and the expected shapes are
//! those that Python 3 reads (its module `ast`; a chain of `or` or `and` is taken two at a time).
//! `reads_each_form` and `refuses_texts` follow the grammar in docs/FORMULAS.md by hand, and
//! `keeps_the_limits` its bounds. `reads_rules` shows what the other dialect has and leaves out;
//! `faults_tell_their_place` has the messages.

use crate::texts::is_text;
use formula_parse::{
    Dialect, Formula, LookupKey, LookupKind, Node, ParseFault, RuleAtom, parse, read_tree,
};
use std::alloc::{AllocError, Global};

// What an atom is, without its names.
fn atom_word(atom: &RuleAtom) -> &'static str {
    match atom {
        RuleAtom::Owner => "Owner",
        RuleAtom::Editor => "Editor",
        RuleAtom::Viewer => "Viewer",
        RuleAtom::User(_) | RuleAtom::UserAttribute(_, _) => "User:",
        RuleAtom::Rec(_) => "Rec:",
        RuleAtom::NewRec(_) => "NewRec:",
    }
}

fn push_atom(out: &mut String, atom: &RuleAtom) -> Result<(), AllocError> {
    out.push_str(atom_word(atom))?;
    match atom {
        RuleAtom::User(name) | RuleAtom::Rec(name) | RuleAtom::NewRec(name) => {
            out.push_str(name.as_str())
        }
        RuleAtom::UserAttribute(first, name) => {
            write!(out, "{}:{}", first.as_str(), name.as_str())
        }
        _ => Ok(()),
    }
}

fn lookup_word(kind: &LookupKind) -> &'static str {
    match kind {
        LookupKind::Records => "Records:",
        LookupKind::One => "One:",
    }
}

// What stands at the root, without its name or sign.
fn word(node: &Node) -> &'static str {
    match node {
        Node::Number(_) => "Number",
        Node::Text(_) => "Text",
        Node::Dollar(_) => "$",
        Node::Conditional(_, _, _) => "Conditional",
        Node::Parentheses(_) => "Parentheses",
        Node::List(_) => "List",
        Node::Call(_, _) => "Call",
        Node::Attribute(_, _) => "Attribute",
        Node::All(_) => "All:",
        Node::Lookup(kind, _, _) => lookup_word(kind),
        _ => "",
    }
}

// Adds what stands at the root.
fn push_root(out: &mut String, formula: &Formula) -> Result<(), AllocError> {
    out.push_str(word(formula.node()))?;
    match formula.node() {
        Node::Dollar(name) | Node::All(name) | Node::Lookup(_, name, _) => {
            out.push_str(name.as_str())
        }
        Node::Constant(constant) => write!(out, "{constant:?}"),
        Node::Binary(op, _, _) => write!(out, "{op:?}"),
        Node::Prefix(op, _) => write!(out, "{op:?}"),
        Node::Rule(atom) => push_atom(out, atom),
        _ => Ok(()),
    }
}

fn push_part(out: &mut String, formula: &Formula) -> Result<(), AllocError> {
    out.push_str(" ")?;
    push_root(out, formula)
}

fn push_parts(out: &mut String, parts: &[Formula]) -> Result<(), AllocError> {
    for part in parts {
        push_part(out, part)?;
    }
    Ok(())
}

fn push_keys(out: &mut String, keys: &[LookupKey]) -> Result<(), AllocError> {
    for key in keys {
        write!(out, " {}=", key.name.as_str())?;
        push_root(out, &key.value)?;
    }
    Ok(())
}

// Adds the roots of the parts of a formula.
fn push_below(out: &mut String, formula: &Formula) -> Result<(), AllocError> {
    match formula.node() {
        Node::Binary(_, left, right) => {
            push_part(out, left)?;
            push_part(out, right)
        }
        Node::Prefix(_, part) | Node::Parentheses(part) | Node::Attribute(part, _) => {
            push_part(out, part)
        }
        Node::Conditional(value, condition, other) => {
            push_part(out, value)?;
            push_part(out, condition)?;
            push_part(out, other)
        }
        Node::List(items) | Node::Call(_, items) => push_parts(out, items.as_slice()),
        Node::Lookup(_, _, keys) => push_keys(out, keys.as_slice()),
        _ => Ok(()),
    }
}

// The root and the roots of its parts.
fn shape(alloc: Global, formula: &Formula) -> Result<String, AllocError> {
    let mut out = String::new(alloc);
    push_root(&mut out, formula)?;
    push_below(&mut out, formula)?;
    Ok(out)
}

fn has_shape(alloc: Global, formula: &Formula, want: &str) -> bool {
    is_text(&shape(alloc, formula), want)
}

// Whether what was read has this shape; `-` is that of no formula.
fn is_shape(alloc: Global, read: &Result<Formula, ParseFault>, want: &str) -> bool {
    match read {
        Ok(formula) => has_shape(alloc, formula, want),
        Err(ParseFault::Syntax { at: _ }) => want == "-",
        Err(ParseFault::NoMemory) => false,
    }
}

fn is_parsed(alloc: Global, text: &str, want: &str) -> bool {
    is_shape(alloc, &parse(alloc, text), want)
}

// Texts, and their shapes.
static GROUPS: [(&str, &str); 37] = [
    ("1 + 2 * 3", "Add Number Multiply"),
    ("2 * 3 + 1", "Add Multiply Number"),
    ("10 - 4 - 3", "Subtract Subtract Number"),
    ("8 // 2 % 3", "Remainder Divide Number"),
    ("2 * 7 // 4", "Divide Multiply Number"),
    ("-7 // 2", "Divide Negate Number"),
    ("-7 % 3", "Remainder Negate Number"),
    ("--3", "Negate Negate"),
    ("2 - -3", "Subtract Number Negate"),
    ("2 * -3", "Multiply Number Negate"),
    ("1 + 2 < 3 * 4", "Less Add Multiply"),
    ("1 == 2 - 3", "Equal Number Subtract"),
    ("not 1 == 2", "Not Equal"),
    ("not 1 + 1", "Not Add"),
    ("not not 0", "Not Not"),
    ("not 0 and 1", "And Not Number"),
    ("1 or 2 and 0", "Or Number And"),
    ("0 and 1 or 2", "Or And Number"),
    ("1 or 2 or 3", "Or Or Number"),
    ("1 and 2 and 3", "And And Number"),
    ("not 1 or 2", "Or Not Number"),
    ("1 in [1] + [2]", "In Number Add"),
    ("3 not in [1, 2]", "NotIn Number List"),
    ("1 is not 0", "IsNot Number Number"),
    ("None is None", "Is None None"),
    ("1 != 2 and 3 >= 4", "And NotEqual AtLeast"),
    ("1 <= 2 or 3 > 4", "Or AtMost More"),
    (
        "1 if 0 else 2 if 0 else 3",
        "Conditional Number Number Conditional",
    ),
    ("1 or 2 if 3 and 4 else not 5", "Conditional Or And Not"),
    ("1 if 0 or 1 else 2", "Conditional Number Or Number"),
    ("-rec.A", "Negate Attribute"),
    ("rec.A.B", "Attribute Attribute"),
    ("rec.A + 1", "Add Attribute Number"),
    ("len('ab') * 2", "Multiply Call Number"),
    ("-len('a')", "Negate Call"),
    ("[1, -2, 'a']", "List Number Negate Text"),
    ("'a' + \"b\"", "Add Text Text"),
];

#[test]
fn groups_as_python_does(rt: HostRuntime) {
    for row in &GROUPS {
        assert!(rt; is_parsed(rt.alloc(), row.0, row.1), "at {}", row.0);
    }
}

// Texts, and their shapes.
static FORMS: [(&str, &str); 23] = [
    (" \t\r\n", "None"),
    ("", "None"),
    ("  7  ", "Number"),
    ("007", "Number"),
    ("$A if $id > 2 else 0", "Conditional $A More Number"),
    ("$A.B", "Attribute $A"),
    ("rec.id", "Attribute Rec"),
    ("(1 + 2) * 3", "Multiply Parentheses Number"),
    ("((1))", "Parentheses Parentheses"),
    ("[]", "List"),
    ("now()", "Call"),
    ("IFERROR($A // $B, -1)", "Call Divide Negate"),
    ("P.all", "All:P"),
    ("all.all.all", "Attribute All:all"),
    ("P.all.A", "Attribute All:P"),
    ("P.lookupRecords()", "Records:P"),
    ("P.lookupOne(id=1)", "One:P id=Number"),
    ("P.lookupRecords(A=$B, C=1 + 2).A", "Attribute Records:P"),
    (
        "P.lookupRecords(Tags=CONTAINS(\"a\"), B=2)",
        "Records:P Tags=Call B=Number",
    ),
    ("P.lookupOne(A=Q.lookupOne(A=1))", "One:P A=One:Q"),
    ("lookupOne(1)", "Call Number"),
    ("(1 < 2) < 3", "Less Parentheses Number"),
    ("1 is (not 0)", "Is Number Parentheses"),
];

#[test]
fn reads_each_form(rt: HostRuntime) {
    for row in &FORMS {
        assert!(rt; is_parsed(rt.alloc(), row.0, row.1), "at {}", row.0);
    }
}

static REFUSED: [&str; 68] = [
    "1 + not 1",
    "- not 1",
    "1 < not 2",
    "1 == 1 == 1",
    "1 < 2 < 3",
    "1 < 2 == True",
    "1 if 1",
    "1 else 2",
    "if 1 else 2",
    "1 if 2 if 1 else 0 else 3",
    "1 not 2",
    "1 is not not 0",
    "[1,]",
    "[,]",
    "[1 2]",
    "[1",
    "1]",
    "'a' 'b'",
    "1_000",
    "1.5",
    "1e3",
    "12 13",
    "$ A",
    "$$A",
    "$A$A",
    "$if",
    "rec.if",
    "$None",
    "rec.rec",
    "rec.",
    "A",
    "id",
    "user",
    "true",
    "id(1)",
    "id.all",
    "1 +",
    ")",
    "(",
    "()",
    "(1",
    "1)",
    "1 2",
    "a = 1",
    "1 = 1",
    "2 ** 3",
    "+1",
    "lambda",
    "1,",
    "'a'[0]",
    "$A()",
    "len('ab',)",
    "len(,)",
    "if(1)",
    "(len)('a')",
    "P.All",
    "P.lookupRows()",
    "P.lookupOne",
    "P.lookupOne(1)",
    "P.lookupOne(A)",
    "P.lookupOne(A=1,)",
    "P.lookupOne(A=)",
    "P.lookupOne(A=1, A=2)",
    "P.lookupOne(if=1)",
    "P.lookupOne(A=1, B=2, A=3)",
    "$P.lookupOne()",
    "a.b",
    "1 2 3 'a",
];

#[test]
fn refuses_texts(rt: HostRuntime) {
    for text in &REFUSED {
        assert!(rt; is_parsed(rt.alloc(), text, "-"), "at {text}");
    }
}

// A text before, the middle that many times, a text behind, and whether the whole is a formula.
type Limit = (&'static str, usize, &'static str, &'static str, bool);

fn around(
    alloc: Global,
    front: &str,
    count: usize,
    text: &str,
    back: &str,
) -> Result<String, AllocError> {
    let mut out = String::from_str(alloc, front)?;
    for _ in 0..count {
        out.push_str(text)?;
    }
    out.push_str(back)?;
    Ok(out)
}

fn is_good(alloc: Global, row: &Limit) -> bool {
    let Ok(whole) = around(alloc, row.0, row.1, row.2, row.3) else {
        return false;
    };
    parse(alloc, whole.as_str()).is_ok()
}

static LIMITS: [Limit; 10] = [
    ("1", 4095, " ", "", true),
    ("1", 4096, " ", "", false),
    ("1", 255, "+1", "", true),
    ("1", 256, "+1", "", false),
    ("", 255, "-", "1", true),
    ("", 256, "-", "1", false),
    ("$", 64, "a", "", true),
    ("$", 65, "a", "", false),
    ("$", 64, "é", "", true),
    ("", 4096, "(", "", false),
];

#[test]
fn keeps_the_limits(rt: HostRuntime) {
    for row in &LIMITS {
        let good = is_good(rt.alloc(), row);
        assert!(rt; good == row.4, "{} times {}", row.1, row.2);
    }
}

// Whether what was read has this shape; `-` is that of no rule, and an empty text has none.
fn is_rule_shape(alloc: Global, read: &Result<Option<Formula>, ParseFault>, want: &str) -> bool {
    match read {
        Ok(Some(tree)) => has_shape(alloc, tree, want),
        Ok(None) => want == "",
        Err(ParseFault::Syntax { at: _ }) => want == "-",
        Err(ParseFault::NoMemory) => false,
    }
}

fn is_rule(alloc: Global, text: &str, want: &str) -> bool {
    is_rule_shape(alloc, &read_tree(alloc, Dialect::Rule, text), want)
}

// Texts of rules, and their shapes.
static RULES: [(&str, &str); 23] = [
    ("1 in [2, 'a'] and not (3 % 2 == 0)", "And In Not"),
    ("user.Access == OWNER", "Equal User:Access Owner"),
    ("user.Office.id not in [1, 2]", "NotIn User:Office:id List"),
    ("rec.A != newRec.A", "NotEqual Rec:A NewRec:A"),
    ("EDITOR or VIEWER", "Or Editor Viewer"),
    ("(rec.id)", "Parentheses Rec:id"),
    ("1 // 2", "-"),
    ("1 if 2 else 3", "-"),
    ("$A", "-"),
    ("rec", "-"),
    ("len('a')", "-"),
    ("(1).id", "-"),
    ("P.all", "-"),
    ("user", "-"),
    ("user.", "-"),
    ("user.A.B.C", "-"),
    ("rec.A.B", "-"),
    ("newRec", "-"),
    ("OWNER.A", "-"),
    ("owner", "-"),
    ("user.if", "-"),
    ("newRec.A()", "-"),
    (" ", ""),
];

#[test]
fn reads_rules(rt: HostRuntime) {
    for row in &RULES {
        assert!(rt; is_rule(rt.alloc(), row.0, row.1), "at {}", row.0);
    }
}

// Faults, and what they tell.
static MESSAGES: [(ParseFault, &str); 2] = [
    (ParseFault::Syntax { at: 17 }, "no formula, from byte 17 on"),
    (ParseFault::NoMemory, "out of memory"),
];

fn is_told(alloc: Global, fault: ParseFault, want: &str) -> bool {
    is_text(&format!(in alloc; "{fault}"), want)
}

#[test]
fn faults_tell_their_place(rt: HostRuntime) {
    for row in &MESSAGES {
        assert!(rt; is_told(rt.alloc(), row.0, row.1), "not {}", row.1);
    }
}
