//! The names of members: at each place those that are read here, and those that Prometheus's published configuration has there
//! besides (<https://prometheus.io/docs/prometheus/latest/configuration/configuration/>).

/// Of the document.
pub(crate) static DOCUMENT_READ: [&str; 3] = ["global", "scrape_configs", "allocator"];

pub(crate) static DOCUMENT_OTHERS: [&str; 9] = [
    "rule_files",
    "scrape_config_files",
    "alerting",
    "remote_write",
    "remote_read",
    "storage",
    "tracing",
    "runtime",
    "otlp",
];

/// Of `global`.
pub(crate) static GLOBAL_READ: [&str; 1] = ["scrape_interval"];

pub(crate) static GLOBAL_OTHERS: [&str; 19] = [
    "scrape_timeout",
    "scrape_protocols",
    "evaluation_interval",
    "rule_query_offset",
    "external_labels",
    "query_log_file",
    "scrape_failure_log_file",
    "body_size_limit",
    "sample_limit",
    "label_limit",
    "label_name_length_limit",
    "label_value_length_limit",
    "target_limit",
    "keep_dropped_targets",
    "metric_name_validation_scheme",
    "metric_name_escaping_scheme",
    "scrape_native_histograms",
    "convert_classic_histograms_to_nhcb",
    "always_scrape_classic_histograms",
];

/// Of a scrape config.
pub(crate) static JOB_READ: [&str; 10] = [
    "job_name",
    "metrics_path",
    "scheme",
    "target_limit",
    "spread",
    "params",
    "static_configs",
    "http_sd_configs",
    "file_sd_configs",
    "relabel_configs",
];

pub(crate) static JOB_OTHERS: [&str; 62] = [
    "scrape_interval",
    "scrape_timeout",
    "scrape_protocols",
    "fallback_scrape_protocol",
    "scrape_native_histograms",
    "always_scrape_classic_histograms",
    "scrape_classic_histograms",
    "convert_classic_histograms_to_nhcb",
    "native_histogram_bucket_limit",
    "native_histogram_min_bucket_factor",
    "metric_name_validation_scheme",
    "metric_name_escaping_scheme",
    "honor_labels",
    "honor_timestamps",
    "track_timestamps_staleness",
    "enable_compression",
    "scrape_failure_log_file",
    "basic_auth",
    "authorization",
    "oauth2",
    "follow_redirects",
    "enable_http2",
    "tls_config",
    "proxy_url",
    "no_proxy",
    "proxy_from_environment",
    "proxy_connect_header",
    "http_headers",
    "body_size_limit",
    "sample_limit",
    "label_limit",
    "label_name_length_limit",
    "label_value_length_limit",
    "keep_dropped_targets",
    "metric_relabel_configs",
    "azure_sd_configs",
    "consul_sd_configs",
    "digitalocean_sd_configs",
    "dns_sd_configs",
    "docker_sd_configs",
    "dockerswarm_sd_configs",
    "ec2_sd_configs",
    "eureka_sd_configs",
    "gce_sd_configs",
    "hetzner_sd_configs",
    "ionos_sd_configs",
    "kubernetes_sd_configs",
    "kuma_sd_configs",
    "lightsail_sd_configs",
    "linode_sd_configs",
    "marathon_sd_configs",
    "nerve_sd_configs",
    "nomad_sd_configs",
    "openstack_sd_configs",
    "ovhcloud_sd_configs",
    "puppetdb_sd_configs",
    "scaleway_sd_configs",
    "serverset_sd_configs",
    "stackit_sd_configs",
    "triton_sd_configs",
    "uyuni_sd_configs",
    "vultr_sd_configs",
];

/// Of a static group.
pub(crate) static GROUP_READ: [&str; 2] = ["targets", "labels"];

/// Of a source of discovery by HTTP.
pub(crate) static SOURCE_READ: [&str; 2] = ["url", "refresh_interval"];

pub(crate) static SOURCE_OTHERS: [&str; 11] = [
    "basic_auth",
    "authorization",
    "oauth2",
    "follow_redirects",
    "enable_http2",
    "tls_config",
    "proxy_url",
    "no_proxy",
    "proxy_from_environment",
    "proxy_connect_header",
    "http_headers",
];

/// Of a source of discovery by files.
pub(crate) static FILES_READ: [&str; 2] = ["files", "refresh_interval"];

/// Of a relabelling rule.
pub(crate) static RULE_READ: [&str; 7] = [
    "source_labels",
    "separator",
    "target_label",
    "regex",
    "modulus",
    "replacement",
    "action",
];

/// Where there is no such name.
pub(crate) static NO_OTHERS: [&str; 0] = [];
