//! What the definitions say of all texts and names.
ghost use Rattle.osd_caps.specs.Opening.{NoNameIsEveryName};

/// What opens the object without a name opens every object of the pool and the namespace.
pub fn no_name_is_every_name()
    ensures { NoNameIsEveryName }
{}
