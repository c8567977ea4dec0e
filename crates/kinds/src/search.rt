// Lines by their rules, and the plain search through all of them.
ghost use Rattle.std.specs.Prelude.{◌≡◌, length, position, Some};
ghost use Rattle.kinds.specs.Lines.{rule_of, rules_of, matches_at, Lowest, compared_for};

use super::kind::Kind;
use super::line::Line;

// The rule of a line, or none where the line is empty.
pub fn rule_of<K: Kind>(line: &Line<K::Row>) -> Option<K::Rule>
    ensures { result ≡ rule_of K.meaning line.now }
{
    if line.mark { K::rule(&line.row) } else { None }
}

// A line filled with a rule.
pub fn filled<K: Kind>(rule: &K::Rule) -> Line<K::Row>
    ensures { rule_of K.meaning result ≡ Some rule.now }
{
    Line {
        mark: true,
        row: K::row(rule),
    }
}

// Whether a line is filled and its rule matches.
fn line_matches<K: Kind>(line: &Line<K::Row>, header: &K::Header) -> bool
    ensures { result ≡ matches_at K.meaning (rule_of K.meaning line.now) header.now }
{
    rule_of::<K>(line).is_some_and(|rule| K::matches(&rule, header))
}

// The first line that is filled and whose rule matches, or none.
fn first<K: Kind>(lines: &[Line<K::Row>], header: &K::Header) -> Option<usize>
    ensures { result ≡ position (λ line. matches_at K.meaning (rule_of K.meaning line) header.now) lines.now }
{
    lines
        .iter()
        .position(|line| line_matches::<K>(line, header))
}

// The lowest filled line whose rule matches, or none, and how many lines were compared: a pair, by a rule of the project.
pub fn first_match<K: Kind>(lines: &[Line<K::Row>], header: &K::Header) -> (Option<usize>, usize)
    ensures answer { Lowest K.meaning (rules_of K.meaning lines.now) header.now result.0 }
    ensures compared { result.1 ≡ compared_for result.0 (length lines.now) }
{
    let line = first::<K>(lines, header);
    (line, line.map_or(lines.len(), |line| line + 1))
}
