// The lengths of the lent lists.
#[derive(Clone, Copy)]
pub(crate) struct AuditLengths {
    pub displacement: usize,
    pub spacing: usize,
    pub relative: usize,
    pub stations: usize,
    pub index: usize,
    pub spare: usize,
    pub keys: usize,
    pub points: usize,
    pub path: usize,
}
