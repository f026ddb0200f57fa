/// The most types that definitions have.
pub const MOST_TYPES: usize = 64;

/// The most properties of a type.
pub const MOST_PROPERTIES: usize = 32;

/// The most methods of a type.
pub const MOST_METHODS: usize = 32;

/// The most arguments of a method.
pub const MOST_ARGUMENTS: usize = 8;

/// The most operations of a method's body.
pub const MOST_OPERATIONS: usize = 32;

/// The most bytes of the name of a type, a property or a method.
pub const LONGEST_NAME: usize = 32;

/// The most base nodes of a world.
pub const MOST_BASE_NODES: u32 = 8;
