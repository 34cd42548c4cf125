// What is known of a pattern while its variables' classes are narrowed.

ghost use Rattle.read_completions.specs.Completions.{MarkedDomains};

use crate::pattern::Pattern;
use read_domains::Domains;

// A pattern with the rows beneath it, and for each of its variables the classes of those values that are derivable.
#[derive(Clone, Copy)]
pub struct Known<'a, 'k> {
    pub pattern: Pattern<'a>,
    pub below: &'k [bool; 96],
    pub marked: &'k Domains,
    pub ghost right: { MarkedDomains pattern marked.now },
}
