ghost use Rattle.std.specs.Prelude.{◌≡◌};
ghost use Rattle.mg_selector.specs.NameKind.{kind_of_name, other_kind};

/// The kind of a member, by its name: an operator, an unknown operator (any other name that begins with `$`),
/// or a path.
#[derive(Clone, Copy, PartialEq, Eq, Debug, Drop)]
pub(crate) enum NameKind {
    And,
    Or,
    Nor,
    Not,
    ElemMatch,
    AllMatch,
    Value(ValueOperator),
    Unknown,
    Path,
}

/// An operator whose argument is a plain value, not a selector.
#[derive(Clone, Copy, PartialEq, Eq, Debug, Drop)]
pub(crate) enum ValueOperator {
    Lt,
    Lte,
    Eq,
    Ne,
    Gte,
    Gt,
    Exists,
    Type,
    In,
    Nin,
    Size,
    Mod,
    All,
}

pub(crate) fn kind_of_name(name: &str) -> NameKind
    ensures { result ≡ kind_of_name name.now }
{
    match name {
        "$and" => NameKind::And,
        "$or" => NameKind::Or,
        "$nor" => NameKind::Nor,
        "$not" => NameKind::Not,
        "$elemMatch" => NameKind::ElemMatch,
        "$allMatch" => NameKind::AllMatch,
        "$lt" => NameKind::Value(ValueOperator::Lt),
        "$lte" => NameKind::Value(ValueOperator::Lte),
        "$eq" => NameKind::Value(ValueOperator::Eq),
        "$ne" => NameKind::Value(ValueOperator::Ne),
        "$gte" => NameKind::Value(ValueOperator::Gte),
        "$gt" => NameKind::Value(ValueOperator::Gt),
        "$exists" => NameKind::Value(ValueOperator::Exists),
        "$type" => NameKind::Value(ValueOperator::Type),
        "$in" => NameKind::Value(ValueOperator::In),
        "$nin" => NameKind::Value(ValueOperator::Nin),
        "$size" => NameKind::Value(ValueOperator::Size),
        "$mod" => NameKind::Value(ValueOperator::Mod),
        "$all" => NameKind::Value(ValueOperator::All),
        _ => other_kind(name),
    }
}

fn other_kind(name: &str) -> NameKind
    ensures { result ≡ other_kind name.now }
{
    if name.as_bytes().first() == Some(&b'$') {
        NameKind::Unknown
    } else {
        NameKind::Path
    }
}
