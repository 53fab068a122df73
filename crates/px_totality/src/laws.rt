ghost use Rattle.px_totality.specs.Laws.{EachCallHasValue, EachFunctionHasValue, EachTermHasValue, ExtensionsCompose, ExtensionsKeep};

/// In every program that is typed and descends, a call of a definition at ground types, on functions that fit
/// and values of its parameters' types, has exactly one value and one number of calls, and the value is in the
/// result's type. A function that is given may stand later in the text than the definition that is called.
pub fn each_call_has_value()
    ensures { EachCallHasValue }
{}

/// In every such program a function that fits a type, a built-in or a definition without function parameters,
/// gives exactly one value with one number of calls on values of its parameters' types.
pub fn each_function_has_value()
    ensures { EachFunctionHasValue }
{}

/// In every such program a typed term has exactly one value and one number of calls, and the value is in its
/// type: at any place, at ground types, on functions that fit and values that fit its variables.
pub fn each_term_has_value()
    ensures { EachTermHasValue }
{}

/// A program that is typed and descends is an extension of itself, and an extension of an extension is one.
pub fn extensions_compose()
    ensures { ExtensionsCompose }
{}

/// What is typed in a program is typed in its extensions, an obligation is one of them with the same clause, and
/// what holds of a program holds of them.
pub fn extensions_keep()
    ensures { ExtensionsKeep }
{}
