/// Version V5, the only version that is read and written (Schema.fbs, enum MetadataVersion).
pub(crate) const VERSION: i16 = 4;
