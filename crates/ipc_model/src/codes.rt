//! The codes of types in Schema.fbs.
ghost use Rattle.std.specs.Prelude.{◌≡◌};
ghost use Rattle.ipc_model.specs.TypeCodes.{type_code};

use crate::schema::DataType;

impl DataType {
    /// Returns the type's code in union Type (Schema.fbs), from 1 to 18.
    pub fn code(&self) -> u8
        ensures { result ≡ type_code self.now }
    {
        match self {
            DataType::Null => 1,
            DataType::Int { .. } => 2,
            DataType::Binary => 4,
            DataType::Utf8 => 5,
            DataType::Bool => 6,
            DataType::Date(_) => 8,
            DataType::Time(_) => 9,
            DataType::Timestamp { .. } => 10,
            DataType::Duration(_) => 18,
            DataType::List => 12,
            DataType::Struct => 13,
            DataType::FixedSizeBinary(_) => 15,
            DataType::FixedSizeList(_) => 16,
        }
    }
}
