// The numbers of a contract file and of a written one, each said once, under its name.
#![tactic(auto)]

// "Kinds (decimal): 1 constant ..; 2 me; 3 field (arg); 4 entry of mapping arg at key first; 5 parameter arg; 6 operator arg on first,
// second; 7 not; 8 reveal first to owner code arg ..;"
pub const CONSTANT: usize = 1;

pub const ME: usize = 2;

pub const FIELD: usize = 3;

pub const ENTRY: usize = 4;

pub const PARAMETER: usize = 5;

pub const OPERATOR: usize = 6;

pub const NOT: usize = 7;

pub const REVEAL: usize = 8;

// "16 skip; 17 sequence; 18 field arg takes first; 19 entry of arg at first takes second; 20 require; 21 if first, then second, else
// third."
pub const SKIP: usize = 16;

pub const SEQUENCE: usize = 17;

pub const FIELD_TAKES: usize = 18;

pub const ENTRY_TAKES: usize = 19;

pub const REQUIRE: usize = 20;

pub const IF: usize = 21;

// "Nodes follow as in input, with 9 variable first, 10 variable first opened, 22 variable first set to second, 23 verify."
pub const VARIABLE: usize = 9;

pub const OPENED: usize = 10;

pub const SET: usize = 22;

pub const VERIFY: usize = 23;

// The kinds that are written, as the bytes that are put down.
pub const CONSTANT_BYTE: u8 = CONSTANT as u8;

pub const ME_BYTE: u8 = ME as u8;

pub const FIELD_BYTE: u8 = FIELD as u8;

pub const ENTRY_BYTE: u8 = ENTRY as u8;

pub const PARAMETER_BYTE: u8 = PARAMETER as u8;

pub const OPERATOR_BYTE: u8 = OPERATOR as u8;

pub const NOT_BYTE: u8 = NOT as u8;

pub const VARIABLE_BYTE: u8 = VARIABLE as u8;

pub const OPENED_BYTE: u8 = OPENED as u8;

pub const SKIP_BYTE: u8 = SKIP as u8;

pub const SEQUENCE_BYTE: u8 = SEQUENCE as u8;

pub const FIELD_TAKES_BYTE: u8 = FIELD_TAKES as u8;

pub const ENTRY_TAKES_BYTE: u8 = ENTRY_TAKES as u8;

pub const REQUIRE_BYTE: u8 = REQUIRE as u8;

pub const IF_BYTE: u8 = IF as u8;

pub const SET_BYTE: u8 = SET as u8;

pub const VERIFY_BYTE: u8 = VERIFY as u8;

// "Operators: 0 +, 1 −, 2 ×, 3 /, 4 %, 5 <, 6 ≤, 7 ==, 8 !=, 9 and, 10 or."
pub const PLUS: usize = 0;

pub const MINUS: usize = 1;

pub const TIMES: usize = 2;

pub const DIVIDED: usize = 3;

pub const REMAINDER: usize = 4;

pub const LESS: usize = 5;

pub const LESS_OR_EQUAL: usize = 6;

pub const EQUAL: usize = 7;

pub const NOT_EQUAL: usize = 8;

pub const AND: usize = 9;

pub const OR: usize = 10;

// How many operators there are.
pub const OPERATORS: usize = OR + 1;

// "type (0 bool, 1 uint, 2 address)"; in a written file "private ones get type 3 (cell)".
pub const BOOL: usize = 0;

pub const UINT: usize = 1;

pub const ADDRESS: usize = 2;

pub const CELL: usize = 3;

// The types as the bytes that are put down.
pub const BOOL_BYTE: u8 = BOOL as u8;

pub const UINT_BYTE: u8 = UINT as u8;

pub const ADDRESS_BYTE: u8 = ADDRESS as u8;

pub const CELL_BYTE: u8 = CELL as u8;

// "shape (0 plain, 1 final, 2 mapping from address)"
pub const PLAIN: usize = 0;

pub const FINAL: usize = 1;

pub const MAPPING: usize = 2;

// "Owner codes: 0 all, 1 me (the caller), 2 the mapping's key ..".
pub const EVERYONE_CODE: usize = 0;

pub const CALLER_CODE: usize = 1;

pub const KEY_CODE: usize = 2;

// The owner codes as bytes.
pub const EVERYONE_BYTE: u8 = EVERYONE_CODE as u8;

pub const CALLER_BYTE: u8 = CALLER_CODE as u8;

pub const KEY_BYTE: u8 = KEY_CODE as u8;

// "Owner codes: .. 16+f final field f (f 0 to 63), 128+k parameter k (k 0 to 7).": where the codes of finals and those of parameters
// begin, and where they end.
pub const FINAL_CODES: usize = 16;

pub const FINAL_CODES_END: usize = FINAL_CODES + 64;

pub const PARAMETER_CODES: usize = 128;

pub const PARAMETER_CODES_END: usize = PARAMETER_CODES + 8;

// The root of a constraint that its variable opens for the caller, which has no circuit.
pub const OPENS: usize = 65535;

// The same as numbers of two bytes, which a decoded contract is made of.
pub const CONSTANT_SHORT: u16 = CONSTANT as u16;

pub const ME_SHORT: u16 = ME as u16;

pub const FIELD_SHORT: u16 = FIELD as u16;

pub const ENTRY_SHORT: u16 = ENTRY as u16;

pub const PARAMETER_SHORT: u16 = PARAMETER as u16;

pub const OPERATOR_SHORT: u16 = OPERATOR as u16;

pub const NOT_SHORT: u16 = NOT as u16;

pub const REVEAL_SHORT: u16 = REVEAL as u16;

pub const SEQUENCE_SHORT: u16 = SEQUENCE as u16;

pub const FIELD_TAKES_SHORT: u16 = FIELD_TAKES as u16;

pub const ENTRY_TAKES_SHORT: u16 = ENTRY_TAKES as u16;

pub const REQUIRE_SHORT: u16 = REQUIRE as u16;

pub const IF_SHORT: u16 = IF as u16;

pub const DIVIDED_SHORT: u16 = DIVIDED as u16;

pub const REMAINDER_SHORT: u16 = REMAINDER as u16;

pub const LESS_SHORT: u16 = LESS as u16;

pub const LESS_OR_EQUAL_SHORT: u16 = LESS_OR_EQUAL as u16;

pub const EQUAL_SHORT: u16 = EQUAL as u16;

pub const NOT_EQUAL_SHORT: u16 = NOT_EQUAL as u16;

pub const AND_SHORT: u16 = AND as u16;

pub const OR_SHORT: u16 = OR as u16;

pub const BOOL_SHORT: u16 = BOOL as u16;

pub const UINT_SHORT: u16 = UINT as u16;

pub const ADDRESS_SHORT: u16 = ADDRESS as u16;

pub const PLAIN_SHORT: u16 = PLAIN as u16;

pub const FINAL_SHORT: u16 = FINAL as u16;

pub const MAPPING_SHORT: u16 = MAPPING as u16;

pub const FINAL_CODES_SHORT: u16 = FINAL_CODES as u16;

pub const FINAL_CODES_END_SHORT: u16 = FINAL_CODES_END as u16;

pub const PARAMETER_CODES_SHORT: u16 = PARAMETER_CODES as u16;

pub const EVERYONE_CODE_SHORT: u16 = EVERYONE_CODE as u16;

pub const KEY_CODE_SHORT: u16 = KEY_CODE as u16;

pub const CALLER_CODE_SHORT: u16 = CALLER_CODE as u16;

pub const OPENS_SHORT: u16 = OPENS as u16;
