use vn_rules::Target;
use vn_types::Prefix;

/// A route: the prefix that it leads to, and where it leads.
#[derive(Clone, Copy, PartialEq, Eq)]
pub struct Route {
    pub to: Prefix,
    pub target: Target,
}
