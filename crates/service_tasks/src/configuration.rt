//! Where a service has its configuration.
use crate::service::Service;
use lists::Text;
use service_state::ProcessFigures;

/// Where a service has its configuration.
pub trait Configuration {
    /// Reads it again, and keeps it where it asks for a service. Else the line tells why it asks for none.
    fn read(&mut self) -> Result<(), Text>;

    /// The service that the configuration asks for that was kept last. None without memory.
    fn service(&self) -> Option<Service>;

    /// What the machine says of this process.
    fn process(&self) -> ProcessFigures;
}
