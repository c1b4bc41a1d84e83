ghost use Rattle.type_rules.specs.Typable.{EachIsTypedOrFaulty, HasOneTypeFault, IsUntypable};

/// A program has at most one type fault: the rules fix its kind and its place.
pub fn at_most_one_fault()
    ensures { HasOneTypeFault }
{}

/// A program with a type fault is not typable.
pub fn faults_are_untypable()
    ensures { IsUntypable }
{}

/// Every program in scope is typable or has a type fault.
pub fn each_is_typed_or_faulty()
    ensures { EachIsTypedOrFaulty }
{}
